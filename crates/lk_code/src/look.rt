//! Look-ups in the tables of code.

ghost use Rattle.lk_code.specs.Tables.{cont_at, home_of};
ghost use Rattle.lk_ir.specs.Tables.{body_at, form_at};
ghost use Rattle.std.specs.Option.{option_copied};
ghost use Rattle.std.specs.Prelude.{◌≡◌};

use crate::tables::{CodeTables, Home};
use lk_ir::{Body, Cont, Form, Forms};

/// The node with this number; none exactly where there is none.
pub fn form_at(forms: &Forms, node: u32) -> Option<&Form>
    ensures { option_copied result ≡ form_at forms.now node }
{
    forms.nodes.get(node as usize)
}

/// The body of what has this label; none exactly where it has none.
pub fn body_at(forms: &Forms, label: u32) -> Option<&Body>
    ensures { option_copied result ≡ body_at forms.now label }
{
    body_of(forms, label as usize)
}

/// The same by an index.
pub fn body_of(forms: &Forms, label: usize) -> Option<&Body>
    ensures { option_copied result ≡ body_at forms.now label }
{
    match forms.labels.get(label) {
        Some(form) => form.body.as_ref(),
        None => None,
    }
}

/// The home of a frame; none exactly where it is a return or there is none.
pub fn home_of(tables: &CodeTables, number: u32) -> Option<Home>
    ensures { result ≡ home_of tables.now number }
{
    home_in(tables, number as usize)
}

/// The same by an index.
pub fn home_in(tables: &CodeTables, number: usize) -> Option<Home>
    ensures { result ≡ home_of tables.now number }
{
    let first = tables.funs.len();
    if number < first {
        None
    } else {
        tables.homes.get(number - first).copied()
    }
}

/// The continuation of a position; none exactly where it has none.
pub fn cont_at(tables: &CodeTables, node: u32, position: usize) -> Option<&Cont>
    ensures { option_copied result ≡ cont_at tables.now (record { node = node; position = position }) }
{
    match tables.conts.get().get(node as usize) {
        Some(conts) => match conts.of.get(position) {
            Some(cont) => cont.as_ref(),
            None => None,
        },
        None => None,
    }
}
