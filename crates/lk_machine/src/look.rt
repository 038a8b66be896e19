//! Look-ups in the tables of code.

ghost use Rattle.lk_ir.specs.Tables as ir;
ghost use Rattle.lk_ir.specs.Tables.{names_of as names_in};
ghost use Rattle.lk_ir.specs.declared.nodes.Form.{Form as TheForm};
ghost use Rattle.std.specs.Option.{option_and_then, option_copied};
ghost use Rattle.std.specs.Prelude.{◌≡◌, IfOk, slice_get};

use lk_ast::{List, NoMemory};
pub use lk_code::{body_at, cont_at, form_at, home_of};
use lk_ir::{Form, Forms, Kept};
use std::alloc::Global;

/// The node of the position of a node.
pub fn part_at(forms: &Forms, node: u32, position: usize) -> Option<&Form>
    ensures { option_copied result ≡ option_and_then (ir.form_at forms.now) (option_and_then (λ (form : TheForm). slice_get form.parts position) (ir.form_at forms.now node)) }
{
    let form = form_at(forms, node)?;
    let part = form.parts.get(position)?;
    form_at(forms, *part)
}

/// The names that are kept.
pub fn names_of(alloc: Global, kept: &[Kept]) -> Result<List<u32>, NoMemory>
    ensures { IfOk result (λ names. names ≡ names_in kept.now) }
{
    let mut names = List::new(alloc);
    for one in kept {
        names.push(one.name)?;
    }
    Ok(names)
}
