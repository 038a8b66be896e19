//! Reports as text.

ghost use Rattle.std.specs.List.{AllByRecursion, flat_map, list_all};
ghost use Rattle.std.specs.Prelude.{◌≡◌, ◌+◌, ◌++◌, ◌∷◌, [], IfOk, decimal, false};
ghost use Rattle.lk_join.specs.Reports.{IsPlainReport, IsReportText, end_line, end_shows_function, entry_line, entry_shows_function, is_done, session_line, session_lines, shown_bytes, status_of};
ghost use Rattle.lk_join.specs.declared.report.Entry.{Entry};
ghost use Rattle.lk_join.specs.declared.report.Entry.TheVariants.{Happened};
ghost use Rattle.lk_join.specs.declared.report.SessionReport.{SessionReport};
ghost use Rattle.lk_report.specs.Lines.{line};

use crate::bytes::shown_bytes;
use crate::report::{End, Entry, Report, SessionReport};
use lk_ast::{Event, NoMemory, Text};
use lk_report::{line_of_done, line_of_event, line_of_tables, line_of_trap};
use std::alloc::Global;

/// What is printed of a run in which no function is shown: a line for each session, one for each entry, and one for the declared
/// tables.
pub fn report_text(alloc: Global, report: &Report) -> Result<Text, NoMemory>
    requires plain { IsPlainReport report.now }
    ensures { IfOk result (IsReportText report.now) }
{
    let sessions = lines_of_sessions(alloc, report.sessions.as_slice())?;
    let entries = lines_of_entries(alloc, report.entries.as_slice())?;
    let tables = line_of_tables(alloc, report.tables.as_slice())?;
    joined(sessions, &entries, &tables)
}

/// The status of a run: 0 where every session is done, else 8.
pub fn report_status(report: &Report) -> u8
    ensures { result ≡ status_of report.now }
{
    if all_done(report.sessions.as_slice()) {
        0
    } else {
        8
    }
}

fn all_done(sessions: &[SessionReport]) -> bool
    ensures { result ≡ list_all (λ (session : SessionReport). is_done session.end) sessions.now }
{
    for session in sessions {
        if !is_done(&session.end) {
            return false;
        }
    }
    true
}

fn is_done(end: &End) -> bool
    ensures { result ≡ is_done end.now }
{
    match end {
        End::Done(_) => true,
        End::Trap(_)
        | End::Running
        | End::Dropped
        | End::StoreFault
        | End::TableFull(_)
        | End::VisitBudget(_)
        | End::TooBig(_)
        | End::TooDeep(_) => false,
    }
}

/// Two texts behind another.
fn joined(first: Text, second: &Text, third: &Text) -> Result<Text, NoMemory>
    ensures { IfOk result (λ text. text ≡ first ++ (second.now ++ third.now)) }
{
    let mut text = first;
    text.push(second.as_str())?;
    text.push(third.as_str())?;
    Ok(text)
}

fn lines_of_sessions(alloc: Global, sessions: &[SessionReport]) -> Result<Text, NoMemory>
    requires plain { AllByRecursion (λ (session : SessionReport). end_shows_function session.end ≡ false) sessions.now }
    ensures { IfOk result (λ text. text ≡ session_lines 1 sessions.now) }
{
    let mut text = Text::new(alloc);
    let mut before = 0usize;
    for session in sessions {
        let line = line_of_session(alloc, before + 1, session)?;
        text.push(line.as_str())?;
        before += 1;
    }
    Ok(text)
}

fn line_of_session(alloc: Global, number: usize, session: &SessionReport) -> Result<Text, NoMemory>
    requires plain { end_shows_function session.now.end ≡ false }
    ensures { IfOk result (λ line. line ≡ session_line number session.now) }
{
    let end = line_of_end(alloc, &session.end, session.steps)?;
    let line = format!(in alloc; "session {} {}", number, end.as_str())?;
    Ok(Text::from_string(line))
}

fn line_of_end(alloc: Global, end: &End, steps: u64) -> Result<Text, NoMemory>
    requires plain { end_shows_function end.now ≡ false }
    ensures { IfOk result (λ line. line ≡ end_line end.now steps) }
{
    match end {
        End::Done(value) => line_of_done(alloc, steps, value),
        End::Trap(trap) => line_of_trap(alloc, steps, *trap),
        End::Running => line_of_steps(alloc, "running", steps),
        End::Dropped => line_of_steps(alloc, "dropped", steps),
        End::StoreFault => line_of_steps(alloc, "store-fault", steps),
        End::TableFull(size) => line_of_size(alloc, "table-full", steps, *size),
        End::VisitBudget(size) => line_of_size(alloc, "visit-budget", steps, *size),
        End::TooBig(size) => line_of_size(alloc, "too-big", steps, *size),
        End::TooDeep(size) => line_of_size(alloc, "too-deep", steps, *size),
    }
}

fn line_of_steps(alloc: Global, word: &str, steps: u64) -> Result<Text, NoMemory>
    ensures { IfOk result (λ text. text ≡ line (word.now ∷ decimal steps ∷ [])) }
{
    let line = format!(in alloc; "{} {}\n", word, steps)?;
    Ok(Text::from_string(line))
}

fn line_of_size(alloc: Global, word: &str, steps: u64, size: u64) -> Result<Text, NoMemory>
    ensures { IfOk result (λ text. text ≡ line (word.now ∷ decimal steps ∷ decimal size ∷ [])) }
{
    let line = format!(in alloc; "{} {} {}\n", word, steps, size)?;
    Ok(Text::from_string(line))
}

fn lines_of_entries(alloc: Global, entries: &[Entry]) -> Result<Text, NoMemory>
    requires plain { AllByRecursion (λ (entry : Entry). entry_shows_function entry ≡ false) entries.now }
    ensures { IfOk result (λ text. text ≡ flat_map entry_line entries.now) }
{
    let mut text = Text::new(alloc);
    for entry in entries {
        text.push(line_of_entry(alloc, entry)?.as_str())?;
    }
    Ok(text)
}

fn line_of_entry(alloc: Global, entry: &Entry) -> Result<Text, NoMemory>
    requires plain { entry_shows_function entry.now ≡ false }
    ensures { IfOk result (λ line. line ≡ entry_line entry.now) }
{
    match entry {
        Entry::Happened(number, event) => numbered_event(alloc, *number, event),
        Entry::Request(number, bytes) => {
            line_of_bytes(alloc, *number, "request", bytes.as_slice())
        }
        Entry::Reply(number, bytes) => line_of_bytes(alloc, *number, "reply", bytes.as_slice()),
        Entry::Cut(number) => {
            let line = format!(in alloc; "{} cut\n", *number)?;
            Ok(Text::from_string(line))
        }
    }
}

fn numbered_event(alloc: Global, number: u32, event: &Event) -> Result<Text, NoMemory>
    requires plain { entry_shows_function (Happened number event.now) ≡ false }
    ensures { IfOk result (λ line. line ≡ entry_line (Happened number event.now)) }
{
    let line = line_of_event(alloc, event)?;
    let line = format!(in alloc; "{} {}", number, line.as_str())?;
    Ok(Text::from_string(line))
}

fn line_of_bytes(alloc: Global, number: u32, word: &str, bytes: &[u8]) -> Result<Text, NoMemory>
    ensures { IfOk result (λ text. text ≡ line (decimal number ∷ word.now ∷ shown_bytes bytes.now ∷ [])) }
{
    let shown = shown_bytes(alloc, bytes)?;
    let line = format!(in alloc; "{} {} {}\n", number, word, shown.as_str())?;
    Ok(Text::from_string(line))
}
