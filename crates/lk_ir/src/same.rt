//! Whether two ground types are the same. A type stands once in a table of nodes.

ghost use Rattle.std.specs.Prelude.{◌≡◌, ◌↔◌, IsTrue};

use lk_types::{Effect, Ground, GroundField};

/// Whether both are the same type.
#[cycle(same)]
pub fn same_type(a: &Ground, b: &Ground) -> bool
    ensures { IsTrue result ↔ (a.now ≡ b.now) }
{
    match (a, b) {
        (Ground::Int, Ground::Int) => true,
        (Ground::Bool, Ground::Bool) => true,
        (Ground::Text, Ground::Text) => true,
        (Ground::List(x), Ground::List(y)) => same_type(x.get(), y.get()),
        (Ground::Fields(xs), Ground::Fields(ys)) => {
            same_fields(xs.get().as_slice(), ys.get().as_slice())
        }
        (Ground::Tags(xs), Ground::Tags(ys)) => {
            same_fields(xs.get().as_slice(), ys.get().as_slice())
        }
        (Ground::Fun(xs, fs, x), Ground::Fun(ys, gs, y)) => {
            same_types(xs.get().as_slice(), ys.get().as_slice())
                && same_effects(fs.get().as_slice(), gs.get().as_slice())
                && same_type(x.get(), y.get())
        }
        _ => false,
    }
}

/// Whether both lists have the same types.
#[cycle(same)]
pub fn same_types(xs: &[Ground], ys: &[Ground]) -> bool
    ensures { IsTrue result ↔ (xs.now ≡ ys.now) }
{
    if xs.len() != ys.len() {
        return false;
    }
    for (i, x) in xs.iter().enumerate() {
        if !same_type(x, &ys[i]) {
            return false;
        }
    }
    true
}

#[cycle(same)]
fn same_fields(xs: &[GroundField], ys: &[GroundField]) -> bool
    ensures { IsTrue result ↔ (xs.now ≡ ys.now) }
{
    if xs.len() != ys.len() {
        return false;
    }
    for (i, x) in xs.iter().enumerate() {
        let y = &ys[i];
        if !(x.label.equals(&y.label) && same_type(&x.ty, &y.ty)) {
            return false;
        }
    }
    true
}

/// Whether both lists have the same effects, in the same order.
pub fn same_effects(xs: &[Effect], ys: &[Effect]) -> bool
    ensures { IsTrue result ↔ (xs.now ≡ ys.now) }
{
    if xs.len() != ys.len() {
        return false;
    }
    for (i, x) in xs.iter().enumerate() {
        if *x != ys[i] {
            return false;
        }
    }
    true
}
