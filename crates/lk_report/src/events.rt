//! Lines of events.

ghost use Rattle.std.specs.List.{list_any};
ghost use Rattle.std.specs.Prelude.{◌≡◌, IfOk, false};
ghost use Rattle.lk_ast.specs.Plain.{holds_function};
ghost use Rattle.lk_report.specs.Lines.{args_of, event_line};

use crate::values::{text_of, values_text};
use lk_ast::{Event, NoMemory, Text, rows_value, value_text};
use std::alloc::Global;

/// The line of an event in which no function is shown.
pub fn line_of_event(alloc: Global, event: &Event) -> Result<Text, NoMemory>
    requires plain { list_any holds_function (args_of event.now) ≡ false }
    ensures { IfOk result (λ line. line ≡ event_line event.now) }
{
    match event {
        Event::Print(text) => {
            let printed = text_of(alloc, text)?;
            let line = format!(in alloc; "print {}\n", printed.as_str())?;
            Ok(Text::from_string(line))
        }
        Event::Enter => Text::from_str(alloc, "enter\n"),
        Event::Leave => Text::from_str(alloc, "leave\n"),
        Event::Read(read) => {
            let args = values_text(alloc, read.args.as_slice())?;
            let answer = value_text(alloc, &rows_value(alloc, read.answer.as_slice())?)?;
            let line = format!(in alloc;
                "read @{} {} {}\n",
                read.site,
                args.as_str(),
                answer.as_str()
            )?;
            Ok(Text::from_string(line))
        }
        Event::Write(write) => {
            let args = values_text(alloc, write.args.as_slice())?;
            let line = format!(in alloc; "write @{} {}\n", write.site, args.as_str())?;
            Ok(Text::from_string(line))
        }
    }
}
