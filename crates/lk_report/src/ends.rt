//! Lines of the ends of sessions.

ghost use Rattle.std.specs.Prelude.{◌≡◌, IfOk, false};
ghost use Rattle.lk_ast.specs.Plain.{holds_function};
ghost use Rattle.lk_report.specs.Lines.{done_line, trap_line, trap_name};

use lk_ast::{NoMemory, Text, Trap, Value, value_text};
use std::alloc::Global;

/// The line of an end with a value in which no function stands.
pub fn line_of_done(alloc: Global, number: u64, value: &Value) -> Result<Text, NoMemory>
    requires plain { holds_function value.now ≡ false }
    ensures { IfOk result (λ line. line ≡ done_line number value.now) }
{
    let value = value_text(alloc, value)?;
    let line = format!(in alloc; "done {} {}\n", number, value.as_str())?;
    Ok(Text::from_string(line))
}

/// The line of an end in a trap.
pub fn line_of_trap(alloc: Global, number: u64, trap: Trap) -> Result<Text, NoMemory>
    ensures { IfOk result (λ line. line ≡ trap_line number trap) }
{
    let line = format!(in alloc; "trap {} {}\n", number, name_of_trap(trap))?;
    Ok(Text::from_string(line))
}

fn name_of_trap(trap: Trap) -> &'static str
    ensures { result.now ≡ trap_name trap }
{
    match trap {
        Trap::Divide => "divide",
        Trap::Head => "head",
        Trap::Tail => "tail",
    }
}
