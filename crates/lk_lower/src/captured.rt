//! What queries and changes capture, with its types.

ghost use Rattle.lk_bodies.specs.CapturedSeen.{typed};
ghost use Rattle.lk_bodies.specs.UsesSeen.{seen_uses};
ghost use Rattle.lk_bodies.specs.Uses.{change_uses as uses_in_change, query_uses as uses_in_query};
ghost use Rattle.lk_index.specs.Free.{captured_change as captured_by_change, captured_query as captured_by_query, texts};
ghost use Rattle.lk_lower.specs.Steps.{Captures, IsKeptAt, Learns};
ghost use Rattle.lk_lower.specs.Walked.{state_of};
ghost use Rattle.lk_typing.specs.Names.{named};
ghost use Rattle.std.specs.Option.{option_copied};
ghost use Rattle.std.specs.Prelude.{◌≡◌, drop, IfOk};

use crate::locals::place_of;
use crate::walk::{Walk, type_number};
use lk_ast::{ChangeExpr, Expr, List, NoMemory};
use lk_bodies::{NameUse, change_uses, query_uses};
use lk_equations::Scope;
use lk_index::{captured_change, captured_query};
use lk_ir::Kept;
use lk_types::Ground;
use std::alloc::Global;

/// What a query with this body captures. The next type is the query's own.
pub fn kept_by_query(alloc: Global, body: &Expr, walk: &mut Walk) -> Result<List<Kept>, NoMemory>
    ensures kept { IfOk result (Captures (captured_by_query body.now) (uses_in_query body.now (drop 1 (state_of walk.old).pending.types)) (state_of walk.new)) }
    ensures state { Learns (state_of walk.old) (state_of walk.new) }
{
    let left = walk.types_left;
    let [_, types @ ..] = left else {
        return Err(NoMemory);
    };
    let uses = query_uses(alloc, body, types)?;
    let names = captured_query(alloc, body)?;
    kept(alloc, names.as_slice(), uses.as_slice(), walk)
}

/// What an update or a deletion captures. The next type is its own.
pub fn kept_by_change(
    alloc: Global,
    rows: &ChangeExpr,
    walk: &mut Walk,
) -> Result<List<Kept>, NoMemory>
    ensures kept { IfOk result (Captures (captured_by_change rows.now) (uses_in_change rows.now (drop 1 (state_of walk.old).pending.types)) (state_of walk.new)) }
    ensures state { Learns (state_of walk.old) (state_of walk.new) }
{
    let left = walk.types_left;
    let [_, types @ ..] = left else {
        return Err(NoMemory);
    };
    let uses = change_uses(alloc, rows, types)?;
    let names = captured_change(alloc, rows)?;
    kept(alloc, names.as_slice(), uses.as_slice(), walk)
}

/// These names, each with the type of its first use. `NoMemory` where one has no use that has a type, which isn't so in a program.
fn kept(
    alloc: Global,
    names: &[&str],
    uses: &[NameUse],
    walk: &mut Walk,
) -> Result<List<Kept>, NoMemory>
    ensures kept { IfOk result (Captures (texts names.now) (seen_uses uses.now) (state_of walk.new)) }
    ensures state { Learns (state_of walk.old) (state_of walk.new) }
{
    let types = first_types(alloc, uses)?;
    Ok(kept_names(alloc, names, &types, walk)?)
}

/// These names with their types.
fn kept_names(
    alloc: Global,
    names: &[&str],
    types: &Scope<&Ground>,
    walk: &mut Walk,
) -> Result<List<Kept>, NoMemory>
    ensures kept { IfOk result (Captures (texts names.now) (typed types.now) (state_of walk.new)) }
    ensures state { Learns (state_of walk.old) (state_of walk.new) }
{
    let mut kept = List::new(alloc);
    for name in names {
        kept.push(kept_name(name, types, walk)?)?;
    }
    Ok(kept)
}

/// The types of names. The first use of a name is the last to come, so that it hides the others.
fn first_types<'g, 'p>(
    alloc: Global,
    uses: &[NameUse<'g, 'p>],
) -> Result<Scope<'p, &'g Ground>, NoMemory>
    ensures { IfOk result (λ types. typed types ≡ seen_uses uses.now) }
{
    let mut types = Scope::new(alloc);
    for i in (0..uses.len()).rev() {
        let found = &uses[i];
        types.push(found.name, found.ty)?;
    }
    Ok(types)
}

/// The type of a name.
#[tactic(auto, using(lk_bodies::proofs::Filling::named_typed))]
fn type_of<'g>(types: &Scope<'_, &'g Ground>, name: &str) -> Option<&'g Ground>
    ensures { option_copied result ≡ named name.now (typed types.now) }
{
    types.get(name).copied()
}

/// A name with its type.
fn kept_name(name: &str, types: &Scope<&Ground>, walk: &mut Walk) -> Result<Kept, NoMemory>
    ensures kept { IfOk result (IsKeptAt name.now (typed types.now) (state_of walk.new)) }
    ensures state { Learns (state_of walk.old) (state_of walk.new) }
{
    let place = place_of(walk.locals, name)?;
    match type_of(types, name) {
        Some(ty) => {
            let ty = type_number(ty, walk)?;
            Ok(Kept { name: place, ty })
        }
        None => Err(NoMemory),
    }
}
