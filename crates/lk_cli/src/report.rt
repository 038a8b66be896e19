//! What `source` prints for a session.

ghost use Rattle.std.specs.List.{flat_map};
ghost use Rattle.std.specs.Prelude.{◌≡◌, ◌++◌, IfOk};
ghost use Rattle.lk_cli.specs.Ended.{run_of, source_end};
ghost use Rattle.lk_cli.specs.Report.{IsReport, end_line};
ghost use Rattle.lk_report.specs.Lines.{event_line};
ghost use Rattle.lk_sound.specs.Histories.{IsPlainEvent};
ghost use Rattle.lk_types.specs.Each.{Each};
ghost use Rattle.lk_sem.specs.SourceRuns.{IsPlainEnd, IsPlainRun};

use crate::answer::Done;
use crate::ended::End;
use lk_ast::{Event, NoMemory, Text};
use lk_report::{line_of_done, line_of_event, line_of_tables, line_of_trap};
use std::alloc::Global;

/// The report of a session in which no function is shown: a line for each event in order, one for the declared tables, and
/// one for the end.
pub fn report(alloc: Global, done: &Done) -> Result<Text, NoMemory>
    requires shown { IsPlainRun (run_of done.now.run) }
    ensures { IfOk result (IsReport done.now) }
{
    let events = lines_of_events(alloc, done.run.log.as_slice())?;
    let tables = line_of_tables(alloc, done.tables.as_slice())?;
    let end = line_of_end(alloc, &done.run.end, done.run.used)?;
    joined(events, &tables, &end)
}

/// Two texts behind another.
fn joined(first: Text, second: &Text, third: &Text) -> Result<Text, NoMemory>
    ensures { IfOk result (λ text. text ≡ first ++ (second.now ++ third.now)) }
{
    let mut text = first;
    text.push(second.as_str())?;
    text.push(third.as_str())?;
    Ok(text)
}

fn lines_of_events(alloc: Global, log: &[Event]) -> Result<Text, NoMemory>
    requires plain { Each IsPlainEvent log.now }
    ensures { IfOk result (λ text. text ≡ flat_map event_line log.now) }
{
    let mut text = Text::new(alloc);
    for event in log {
        text.push(line_of_plain(alloc, event)?.as_str())?;
    }
    Ok(text)
}

/// The line of an event in which no function is shown.
fn line_of_plain(alloc: Global, event: &Event) -> Result<Text, NoMemory>
    requires plain { IsPlainEvent event.now }
    ensures { IfOk result (λ line. line ≡ event_line event.now) }
{
    line_of_event(alloc, event)
}

fn line_of_end(alloc: Global, end: &End, used: u64) -> Result<Text, NoMemory>
    requires shown { IsPlainEnd (source_end end.now) }
    ensures { IfOk result (λ line. line ≡ end_line end.now used) }
{
    match end {
        End::Value(value) => line_of_done(alloc, used, value),
        End::Trap(trap) => line_of_trap(alloc, used, *trap),
        End::Spent => Text::from_str(alloc, "spent\n"),
        End::TableFull(size) => {
            let line = format!(in alloc; "table-full {}\n", *size)?;
            Ok(Text::from_string(line))
        }
    }
}
