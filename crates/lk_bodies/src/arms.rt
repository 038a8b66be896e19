//! What a walk makes of a node, by its kind.

ghost use Rattle.lk_bodies.specs.Walk.{add, all, behind, choice, emptiness, equality, extension, fields as fields_by, inequality, loop as loop_by, one, three, two, variable, walk, with_all};
ghost use Rattle.lk_bodies.specs.Walked.{calls_in, made_of, state_of};
ghost use Rattle.lk_query.specs.declared.part.Part.TheVariants as part;
ghost use Rattle.std.specs.Prelude.{◌≡◌, IfOk, OnOk, map};

use crate::parts::{add, choice, emptiness, equality, extended, inequality};
use crate::walk::{At, Walked, expr, exprs, fields, under};
use lk_ast::{Expr, List, NoMemory, PartExpr, Text, Word};
use lk_equations::Scope;
use lk_query::Part;
use lk_sql::SqlOp;
use lk_types::Ground;

/// An operation on two bases.
#[cycle(walk)]
pub fn two<'g, 'p>(
    at: &At<'_, 'g, 'p>,
    room: usize,
    op: SqlOp,
    a: &'p Expr,
    b: &'p Expr,
    names: &mut Scope<'p, u32>,
    walked: &mut Walked<'g>,
) -> Result<u32, NoMemory>
    ensures made { IfOk result (λ number. made_of number walked.new ≡ two (part.Two op) (walk (calls_in at.now.over.now at.now.calls) a.now) (walk (calls_in at.now.over.now at.now.calls) b.now) names.old (state_of walked.old)) }
    ensures left { OnOk result (names.new ≡ names.old) }
{
    let a = expr(at, room, a, names, walked)?;
    let b = expr(at, room, b, names, walked)?;
    add(walked, Part::Two(op, a, b))
}

/// A choice between two bases, lists or records.
#[cycle(walk)]
pub fn chosen<'g, 'p>(
    at: &At<'_, 'g, 'p>,
    room: usize,
    own: &'g [Ground],
    c: &'p Expr,
    a: &'p Expr,
    b: &'p Expr,
    names: &mut Scope<'p, u32>,
    walked: &mut Walked<'g>,
) -> Result<u32, NoMemory>
    ensures made { IfOk result (λ number. made_of number walked.new ≡ three (choice own.now) (walk (calls_in at.now.over.now at.now.calls) c.now) (walk (calls_in at.now.over.now at.now.calls) a.now) (walk (calls_in at.now.over.now at.now.calls) b.now) names.old (state_of walked.old)) }
    ensures left { OnOk result (names.new ≡ names.old) }
{
    let c = expr(at, room, c, names, walked)?;
    let a = expr(at, room, a, names, walked)?;
    let b = expr(at, room, b, names, walked)?;
    add(walked, choice(at.over.alloc, own, c, a, b)?)
}

/// Whether two bases or records are equal.
#[cycle(walk)]
pub fn equal<'g, 'p>(
    at: &At<'_, 'g, 'p>,
    room: usize,
    a: &'p Expr,
    b: &'p Expr,
    names: &mut Scope<'p, u32>,
    walked: &mut Walked<'g>,
) -> Result<u32, NoMemory>
    ensures made { IfOk result (λ number. made_of number walked.new ≡ two (equality (state_of walked.old).types) (walk (calls_in at.now.over.now at.now.calls) a.now) (walk (calls_in at.now.over.now at.now.calls) b.now) names.old (state_of walked.old)) }
    ensures left { OnOk result (names.new ≡ names.old) }
{
    let types = walked.types;
    let a = expr(at, room, a, names, walked)?;
    let b = expr(at, room, b, names, walked)?;
    add(walked, equality(at.over.alloc, types, a, b)?)
}

/// Whether two bases or records are not equal.
#[cycle(walk)]
pub fn unequal<'g, 'p>(
    at: &At<'_, 'g, 'p>,
    room: usize,
    a: &'p Expr,
    b: &'p Expr,
    names: &mut Scope<'p, u32>,
    walked: &mut Walked<'g>,
) -> Result<u32, NoMemory>
    ensures made { IfOk result (λ number. made_of number walked.new ≡ behind (walk (calls_in at.now.over.now at.now.calls) a.now names.old (state_of walked.old)) (λ x m. behind (walk (calls_in at.now.over.now at.now.calls) b.now names.old m) (inequality (state_of walked.old).types x))) }
    ensures left { OnOk result (names.new ≡ names.old) }
{
    let types = walked.types;
    let a = expr(at, room, a, names, walked)?;
    let b = expr(at, room, b, names, walked)?;
    inequality(at.over.alloc, types, a, b, walked)
}

/// One list behind the other.
#[cycle(walk)]
pub fn joined<'g, 'p>(
    at: &At<'_, 'g, 'p>,
    room: usize,
    a: &'p Expr,
    b: &'p Expr,
    names: &mut Scope<'p, u32>,
    walked: &mut Walked<'g>,
) -> Result<u32, NoMemory>
    ensures made { IfOk result (λ number. made_of number walked.new ≡ two part.Append (walk (calls_in at.now.over.now at.now.calls) a.now) (walk (calls_in at.now.over.now at.now.calls) b.now) names.old (state_of walked.old)) }
    ensures left { OnOk result (names.new ≡ names.old) }
{
    let a = expr(at, room, a, names, walked)?;
    let b = expr(at, room, b, names, walked)?;
    add(walked, Part::Append(a, b))
}

/// A list under a condition.
#[cycle(walk)]
pub fn filtered<'g, 'p>(
    at: &At<'_, 'g, 'p>,
    room: usize,
    c: &'p Expr,
    e: &'p Expr,
    names: &mut Scope<'p, u32>,
    walked: &mut Walked<'g>,
) -> Result<u32, NoMemory>
    ensures made { IfOk result (λ number. made_of number walked.new ≡ two part.Where (walk (calls_in at.now.over.now at.now.calls) c.now) (walk (calls_in at.now.over.now at.now.calls) e.now) names.old (state_of walked.old)) }
    ensures left { OnOk result (names.new ≡ names.old) }
{
    let c = expr(at, room, c, names, walked)?;
    let e = expr(at, room, e, names, walked)?;
    add(walked, Part::Where(c, e))
}

/// An operation on one base.
#[cycle(walk)]
pub fn one<'g, 'p>(
    at: &At<'_, 'g, 'p>,
    room: usize,
    op: SqlOp,
    e: &'p Expr,
    names: &mut Scope<'p, u32>,
    walked: &mut Walked<'g>,
) -> Result<u32, NoMemory>
    ensures made { IfOk result (λ number. made_of number walked.new ≡ one (part.One op) (walk (calls_in at.now.over.now at.now.calls) e.now) names.old (state_of walked.old)) }
    ensures left { OnOk result (names.new ≡ names.old) }
{
    let e = expr(at, room, e, names, walked)?;
    add(walked, Part::One(op, e))
}

/// Whether a list is empty.
#[cycle(walk)]
pub fn empty<'g, 'p>(
    at: &At<'_, 'g, 'p>,
    room: usize,
    e: &'p Expr,
    names: &mut Scope<'p, u32>,
    walked: &mut Walked<'g>,
) -> Result<u32, NoMemory>
    ensures made { IfOk result (λ number. made_of number walked.new ≡ one (emptiness (state_of walked.old).types) (walk (calls_in at.now.over.now at.now.calls) e.now) names.old (state_of walked.old)) }
    ensures left { OnOk result (names.new ≡ names.old) }
{
    let types = walked.types;
    let list = expr(at, room, e, names, walked)?;
    add(walked, emptiness(at.over.alloc, types, list)?)
}

/// A list of these expressions.
#[cycle(walk)]
pub fn list_of<'g, 'p>(
    at: &At<'_, 'g, 'p>,
    room: usize,
    items: &'p [Expr],
    names: &mut Scope<'p, u32>,
    walked: &mut Walked<'g>,
) -> Result<u32, NoMemory>
    ensures made { IfOk result (λ number. made_of number walked.new ≡ with_all (all (map (walk (calls_in at.now.over.now at.now.calls)) items.now) names.old (state_of walked.old)) (λ numbers. add (part.Items numbers))) }
    ensures left { OnOk result (names.new ≡ names.old) }
{
    let numbers = exprs(at, room, items, names, walked)?;
    add(walked, Part::Items(numbers))
}

/// What a record has under a label.
#[cycle(walk)]
pub fn project<'g, 'p>(
    at: &At<'_, 'g, 'p>,
    room: usize,
    e: &'p Expr,
    label: &Text,
    names: &mut Scope<'p, u32>,
    walked: &mut Walked<'g>,
) -> Result<u32, NoMemory>
    ensures made { IfOk result (λ number. made_of number walked.new ≡ one (λ x. part.Project x label.now) (walk (calls_in at.now.over.now at.now.calls) e.now) names.old (state_of walked.old)) }
    ensures left { OnOk result (names.new ≡ names.old) }
{
    let row = expr(at, room, e, names, walked)?;
    add(walked, Part::Project(row, label.copy(at.over.alloc)?))
}

/// A record with these fields before another one's.
#[cycle(walk)]
pub fn extension<'g, 'p>(
    at: &At<'_, 'g, 'p>,
    room: usize,
    own: &'g [Ground],
    items: &'p [PartExpr],
    e: &'p Expr,
    names: &mut Scope<'p, u32>,
    walked: &mut Walked<'g>,
) -> Result<u32, NoMemory>
    ensures made { IfOk result (λ number. made_of number walked.new ≡ extension own.now (map (λ item. item.label.text) items.now) (map (λ item. walk (calls_in at.now.over.now at.now.calls) item.expr) items.now) (walk (calls_in at.now.over.now at.now.calls) e.now) names.old (state_of walked.old)) }
    ensures left { OnOk result (names.new ≡ names.old) }
{
    let numbers = fields(at, room, items, names, walked)?;
    let rest = expr(at, room, e, names, walked)?;
    extended(at.over.alloc, own, items, numbers.as_slice(), rest, walked)
}

/// A record: its fields before an empty one.
#[cycle(walk)]
pub fn record_of<'g, 'p>(
    at: &At<'_, 'g, 'p>,
    room: usize,
    own: &'g [Ground],
    items: &'p [PartExpr],
    names: &mut Scope<'p, u32>,
    walked: &mut Walked<'g>,
) -> Result<u32, NoMemory>
    ensures made { IfOk result (λ number. made_of number walked.new ≡ fields_by own.now (map (λ item. item.label.text) items.now) (map (λ item. walk (calls_in at.now.over.now at.now.calls) item.expr) items.now) names.old (state_of walked.old)) }
    ensures left { OnOk result (names.new ≡ names.old) }
{
    let numbers = fields(at, room, items, names, walked)?;
    let rest = add(walked, Part::Record(List::new(at.over.alloc)))?;
    extended(at.over.alloc, own, items, numbers.as_slice(), rest, walked)
}

/// A loop. Its row is a part of its own.
#[cycle(walk)]
pub fn loop_over<'g, 'p>(
    at: &At<'_, 'g, 'p>,
    room: usize,
    name: &'p Word,
    e: &'p Expr,
    body: &'p Expr,
    names: &mut Scope<'p, u32>,
    walked: &mut Walked<'g>,
) -> Result<u32, NoMemory>
    ensures made { IfOk result (λ number. made_of number walked.new ≡ loop_by name.now (walk (calls_in at.now.over.now at.now.calls) e.now) (walk (calls_in at.now.over.now at.now.calls) body.now) names.old (state_of walked.old)) }
    ensures left { OnOk result (names.new ≡ names.old) }
{
    let list = expr(at, room, e, names, walked)?;
    let row = add(walked, Part::Bound)?;
    let inner = under(at, room, name, row, body, names, walked)?;
    add(walked, Part::ForList(list, row, inner))
}

/// A statement with a name, and the statements behind it.
#[cycle(walk)]
pub fn variable<'g, 'p>(
    at: &At<'_, 'g, 'p>,
    room: usize,
    name: &'p Word,
    e: &'p Expr,
    rest: &'p Expr,
    names: &mut Scope<'p, u32>,
    walked: &mut Walked<'g>,
) -> Result<u32, NoMemory>
    ensures made { IfOk result (λ number. made_of number walked.new ≡ variable name.now (walk (calls_in at.now.over.now at.now.calls) e.now) (walk (calls_in at.now.over.now at.now.calls) rest.now) names.old (state_of walked.old)) }
    ensures left { OnOk result (names.new ≡ names.old) }
{
    let number = expr(at, room, e, names, walked)?;
    under(at, room, name, number, rest, names, walked)
}

/// A statement without a name, and the statements behind it.
#[cycle(walk)]
pub fn sequence<'g, 'p>(
    at: &At<'_, 'g, 'p>,
    room: usize,
    e: &'p Expr,
    rest: &'p Expr,
    names: &mut Scope<'p, u32>,
    walked: &mut Walked<'g>,
) -> Result<u32, NoMemory>
    ensures made { IfOk result (λ number. made_of number walked.new ≡ behind (walk (calls_in at.now.over.now at.now.calls) e.now names.old (state_of walked.old)) (λ n. walk (calls_in at.now.over.now at.now.calls) rest.now names.old)) }
    ensures left { OnOk result (names.new ≡ names.old) }
{
    expr(at, room, e, names, walked)?;
    expr(at, room, rest, names, walked)
}
