//! The instances of a program, in their two lists.

ghost use Rattle.lk_ast.specs.declared.place.Span.{Span as TheSpan};
ghost use Rattle.lk_mono.specs.Held.{IsSource};
ghost use Rattle.lk_mono.specs.Instances.{AreTooMany, IsMain, IsTooLarge};
ghost use Rattle.lk_mono.specs.Listed.{AreFound};
ghost use Rattle.lk_mono.specs.Looks.{AreNumbered, IsNumbered};
ghost use Rattle.lk_mono.specs.Queues.{AreUsesNumbered, as_use};
ghost use Rattle.lk_ground_types.specs.Grounds.{at};
ghost use Rattle.lk_ground_types.specs.Least.{least};
ghost use Rattle.lk_types.specs.Each.{Each};
ghost use Rattle.lk_types.specs.Grounding.{under};
ghost use Rattle.lk_principal.specs.Law.{IsInstanceOf};
ghost use Rattle.lk_mono.specs.declared.error.MonoError.TheVariants as errors;
ghost use Rattle.lk_mono.specs.declared.error.ShapeKind.{ShapeKind};
ghost use Rattle.lk_types.specs.declared.ground.Ground.{Ground as TheGround};
ghost use Rattle.std.specs.Prelude.{◌≡◌, ◌++◌, ◌<◌, [], ◌∷◌, Err, IfOk, List as TheList, Some, length};

use crate::body::{Body, Source, gather, walk_all};
use crate::error::MonoError;
use crate::listed::Listed;
use crate::queue::{Queue, Use, Wanted};
use lk_ast::{List, NoMemory, main_of};
use lk_ground_types::{Bindings, Grounds, ground_one, share_type};
use lk_principal::principal_laws;
use lk_types::SharedType;
use std::alloc::Global;

/// The most instances in both lists together.
const MOST_INSTANCES: usize = 4096;

/// The instances of a program in their two lists, each with its body.
#[derive(Drop)]
pub struct Instances<'m, 'p> {
    /// Those that sessions may use, `main` first.
    pub mains: Listed<'p>,
    pub main_bodies: List<Body<'m, 'p>>,
    /// Those that queries, updates and deletions use.
    pub helpers: Listed<'p>,
    pub helper_bodies: List<Body<'m, 'p>>,
}

/// The number of what the type of `main` becomes where the least stands for its variables.
fn main_type(alloc: Global, grounds: &mut Grounds, body: &SharedType) -> Result<u32, NoMemory>
    ensures made { IfOk result (λ number. (t : TheGround) → under least body.now ≡ Some t → at grounds.new number ≡ t) }
    ensures within { IfOk result (λ number. number < length grounds.new) }
    ensures more { (rest : TheList TheGround) × (grounds.new ≡ grounds.old ++ rest) }
{
    let bindings = Bindings::none(alloc);
    let tree = body.tree(alloc)?;
    ground_one(alloc, grounds, &bindings, &tree)
}

/// Where a session begins, at its least type, which may be far too large to be walked.
fn main_use<'p>(
    alloc: Global,
    source: Source<'_, 'p>,
    grounds: &mut Grounds,
) -> Result<Use<'p>, MonoError>
    requires source { IsSource source }
    ensures main { IfOk result (λ u. IsMain source.entry.program.now source.entry.typed.now.schemes (as_use u)) }
    ensures sound { IfOk result (λ u. IsInstanceOf source.entry.program.now source.entry.typed.now.schemes u.name.now u.ty) }
    ensures numbered { IfOk result (λ u. IsNumbered grounds.new u.number u.ty) }
    ensures too_many { result ≡ Err errors.TooManyInstances → ⊥ }
    ensures large { (at : TheSpan) → result ≡ Err (errors.TypeTooLarge at) → ⊥ }
    ensures shape { (kind : ShapeKind) (at : TheSpan) → result ≡ Err (errors.Shape kind at) → ⊥ }
    ensures more { (rest : TheList TheGround) × (grounds.new ≡ grounds.old ++ rest) }
{
    principal_laws();
    let Some(main) = main_of(source.program) else {
        unreachable!();
    };
    let Some(member) = source.members.find(&main.name.text) else {
        unreachable!();
    };
    let number = main_type(alloc, grounds, &member.scheme.body)?;
    let ty = share_type(grounds.get(number))?;
    Ok(Use {
        name: &main.name.text,
        ty,
        number,
    })
}

/// The list that has this instance alone.
fn only<'p>(alloc: Global, main: Use<'p>) -> Result<Queue<'p>, NoMemory>
    ensures listed { IfOk result (λ queue. queue.listed ≡ main.entry ∷ []) }
    ensures room { IfOk result (λ queue. queue.room ≡ 4095) }
{
    let mut listed = Listed::new(alloc);
    listed.push(main)?;
    let room = MOST_INSTANCES - 1;
    Ok(Queue { listed, room })
}

/// The instances of a program.
pub fn list_instances<'m, 'p>(
    alloc: Global,
    source: Source<'m, 'p>,
    grounds: &mut Grounds,
) -> Result<Instances<'m, 'p>, MonoError>
    requires source { IsSource source }
    ensures found { IfOk result (λ instances. AreFound source.entry instances) }
    ensures too_many { result ≡ Err errors.TooManyInstances → AreTooMany source.entry.program.now source.entry.typed.now.schemes source.entry.typed.now.types }
    ensures large { (at : TheSpan) → result ≡ Err (errors.TypeTooLarge at) → IsTooLarge source.entry.program.now source.entry.typed.now.schemes source.entry.typed.now.types at }
    ensures shape { (kind : ShapeKind) (at : TheSpan) → result ≡ Err (errors.Shape kind at) → ⊥ }
    ensures mains { IfOk result (λ i. AreUsesNumbered grounds.new i.mains × Each (λ held. AreNumbered grounds.new held.uses) i.main_bodies) }
    ensures helpers { IfOk result (λ i. AreUsesNumbered grounds.new i.helpers × Each (λ held. AreNumbered grounds.new held.uses) i.helper_bodies) }
{
    let mut mains = only(alloc, main_use(alloc, source, grounds)?)?;
    let main_bodies = walk_all(alloc, source, grounds, &mut mains, Wanted::Outside)?;
    let mut helpers = Queue {
        listed: Listed::new(alloc),
        room: mains.room,
    };
    if !gather(grounds, &mut helpers, main_bodies.as_slice())? {
        return Err(MonoError::TooManyInstances);
    }
    let helper_bodies = walk_all(alloc, source, grounds, &mut helpers, Wanted::Everywhere)?;
    Ok(Instances {
        mains: mains.listed,
        main_bodies,
        helpers: helpers.listed,
        helper_bodies,
    })
}
