//! Instances, walked one after another.

ghost use Rattle.lk_mono.specs.Held.{AreHeld, IsSource, IsSound};
ghost use Rattle.lk_mono.specs.Instances.{Body as TheBody};
ghost use Rattle.lk_mono.specs.Looks.{AreNumbered};
ghost use Rattle.lk_mono.specs.Queues.{AreUsesNumbered, as_wanted};
ghost use Rattle.lk_ground_types.specs.Grounds.{at};
ghost use Rattle.lk_types.specs.Each.{Each};
ghost use Rattle.lk_mono.specs.Steps.{AllWalked, Gathered, IsFullAt, IsLargeAt, IsStep, StopsFull, StopsLarge};
ghost use Rattle.lk_mono.specs.declared.body.Source.{Source as TheSource};
ghost use Rattle.lk_mono.specs.declared.error.MonoError.TheVariants as errors;
ghost use Rattle.lk_mono.specs.declared.error.ShapeKind.{ShapeKind};
ghost use Rattle.lk_ast.specs.declared.place.Span.{Span as TheSpan};
ghost use Rattle.lk_types.specs.declared.ground.Ground.{Ground as TheGround};
ghost use Rattle.std.specs.Prelude.{◌≡◌, ◌++◌, ◌<◌, ℕ, Err, IfOk, List as TheList, OnOk, length, map};

use crate::error::MonoError;
use crate::look::{Found, look_into};
use crate::member::{Member, Members};
use crate::queue::{Queue, Wanted, add_uses};
use lk_ast::{List, NoMemory, Program};
use lk_ground_types::{Grounds, share_type};
use lk_infer::Typed;
use lk_outline::outline_laws;
use lk_principal::principal_laws;
use lk_types::Ground;
use std::alloc::Global;

/// A program, what is inferred of it, and its functions with what is inferred of each.
#[derive(Clone, Copy)]
pub struct Source<'m, 'p> {
    pub program: &'p Program,
    pub typed: &'p Typed,
    pub members: &'m Members<'p>,
}

/// An instance: its function, the types of its nodes, and what it uses.
#[derive(Drop)]
pub struct Body<'m, 'p> {
    pub member: &'m Member<'p>,
    pub types: List<Ground>,
    pub uses: List<Found<'p>>,
}

/// The types of these numbers.
fn shared_types(alloc: Global, grounds: &Grounds, numbers: &[u32]) -> Result<List<Ground>, NoMemory>
    requires { Each (λ n. n < length grounds.now) numbers.now }
    ensures { IfOk result (λ types. types ≡ map (at grounds.now) numbers.now) }
{
    let mut types = List::new(alloc);
    for number in numbers {
        types.push(share_type(grounds.get(*number))?)?;
    }
    Ok(types)
}

/// Walks the instance of that number: lists what it uses that is looked for.
fn walk<'m, 'p>(
    alloc: Global,
    source: Source<'m, 'p>,
    grounds: &mut Grounds,
    queue: &mut Queue<'p>,
    wanted: Wanted,
    number: usize,
) -> Result<Body<'m, 'p>, MonoError>
    requires source { IsSource source }
    requires sound { (others : ℕ) × IsSound source others queue.now }
    requires numbered { AreUsesNumbered grounds.old queue.now.listed }
    requires number { number < length queue.now.listed }
    ensures walked { IfOk result (λ held. (others : ℕ) → IsSound source.entry others queue.old → IsStep source.entry (as_wanted wanted) others queue.old number held queue.new) }
    ensures full { result ≡ Err errors.TooManyInstances → (others : ℕ) → IsSound source.entry others queue.old → IsFullAt source.entry (as_wanted wanted) others queue.old number }
    ensures large { (at : TheSpan) → result ≡ Err (errors.TypeTooLarge at) → (others : ℕ) → IsSound source.entry others queue.old → IsLargeAt source.entry (as_wanted wanted) others queue.old number at }
    ensures shape { (kind : ShapeKind) (at : TheSpan) → result ≡ Err (errors.Shape kind at) → ⊥ }
    ensures listed { OnOk result (AreUsesNumbered grounds.new queue.new.listed) }
    ensures uses { IfOk result (λ held. AreNumbered grounds.new held.uses) }
    ensures more { (rest : TheList TheGround) × (grounds.new ≡ grounds.old ++ rest) }
{
    outline_laws();
    principal_laws();
    let next = queue.listed.at(number);
    let Some(member) = source.members.find(next.name) else {
        unreachable!();
    };
    let looked = look_into(alloc, grounds, member, next.number)?;
    if !add_uses(grounds, queue, wanted, looked.uses.as_slice())? {
        return Err(MonoError::TooManyInstances);
    }
    match looked.large {
        Some(at) => Err(MonoError::TypeTooLarge(at)),
        None => Ok(Body {
            member,
            types: shared_types(alloc, grounds, looked.numbers.as_slice())?,
            uses: looked.uses,
        }),
    }
}

/// Walks all instances of a list in turn, those that are listed meanwhile too.
pub fn walk_all<'m, 'p>(
    alloc: Global,
    source: Source<'m, 'p>,
    grounds: &mut Grounds,
    queue: &mut Queue<'p>,
    wanted: Wanted,
) -> Result<List<Body<'m, 'p>>, MonoError>
    requires source { IsSource source }
    requires sound { (others : ℕ) × IsSound source others queue.now }
    requires numbered { AreUsesNumbered grounds.old queue.now.listed }
    ensures walked { IfOk result (λ helds. (others : ℕ) → IsSound source.entry others queue.old → AllWalked source.entry (as_wanted wanted) others queue.old helds queue.new) }
    ensures full { result ≡ Err errors.TooManyInstances → (others : ℕ) → IsSound source.entry others queue.old → StopsFull source.entry (as_wanted wanted) others queue.old }
    ensures large { (at : TheSpan) → result ≡ Err (errors.TypeTooLarge at) → (others : ℕ) → IsSound source.entry others queue.old → StopsLarge source.entry (as_wanted wanted) others queue.old at }
    ensures shape { (kind : ShapeKind) (at : TheSpan) → result ≡ Err (errors.Shape kind at) → ⊥ }
    ensures listed { OnOk result (AreUsesNumbered grounds.new queue.new.listed) }
    ensures uses { IfOk result (Each (λ held. AreNumbered grounds.new held.uses)) }
    ensures more { (rest : TheList TheGround) × (grounds.new ≡ grounds.old ++ rest) }
{
    let mut bodies = List::new(alloc);
    while bodies.len() < queue.listed.len() {
        let body = walk(alloc, source, grounds, queue, wanted, bodies.len())?;
        bodies.push(body)?;
    }
    Ok(bodies)
}

/// Lists what instances use inside of queries, updates and deletions. Whether there was room.
pub fn gather<'p>(
    grounds: &Grounds,
    queue: &mut Queue<'p>,
    mains: &[Body<'_, 'p>],
) -> Result<bool, NoMemory>
    requires numbered { AreUsesNumbered grounds.now queue.old.listed }
    requires uses { Each (λ held. AreNumbered grounds.now held.uses) mains.now }
    ensures gathered { IfOk result (λ ok. (source : TheSource) (others : ℕ) (bodies : TheList TheBody) → IsSource source → IsSound source others queue.old → AreHeld source mains.now bodies → Gathered source others bodies queue.old queue.new ok) }
    ensures listed { OnOk result (AreUsesNumbered grounds.now queue.new.listed) }
{
    principal_laws();
    for body in mains {
        if !add_uses(grounds, queue, Wanted::Inside, body.uses.as_slice())? {
            return Ok(false);
        }
    }
    Ok(true)
}
