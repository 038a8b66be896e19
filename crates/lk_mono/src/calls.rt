//! What the uses in instances call, by places in the lists.

ghost use Rattle.lk_mono.specs.Grounded.{AreAllCalled, AreCalled};
ghost use Rattle.lk_mono.specs.Held.{AreHeld, AreSited};
ghost use Rattle.lk_mono.specs.Instances.{Body as TheBody, most_instances};
ghost use Rattle.lk_mono.specs.Listed.{AreListedIn, IsListedAt};
ghost use Rattle.lk_mono.specs.Looks.{AreNumbered, IsNumbered, as_found, as_uses};
ghost use Rattle.lk_mono.specs.Queues.{AreUsesNumbered, as_list};
ghost use Rattle.lk_mono.specs.declared.body.Source.{Source as TheSource};
ghost use Rattle.lk_sound.specs.Nodes.{TypedNode, Use as TheUse};
ghost use Rattle.lk_types.specs.Each.{Each, OneOf};
ghost use Rattle.std.specs.Prelude.{◌≡◌, ◌≤◌, ◌||◌, ◌⊎◌, IfOk, List as TheList, Some, if◌then◌else◌, length, slice_get};

use crate::body::Body;
use crate::listed::Listed;
use crate::look::Found;
use lk_ast::{List, NoMemory};
use lk_ground_types::Grounds;
use std::alloc::Global;

/// The place of an instance in a list, or how many there are.
fn place_of<'p>(grounds: &Grounds, listed: &Listed<'p>, found: &Found<'p>) -> usize
    requires listed { AreUsesNumbered grounds.now listed.now }
    requires found { IsNumbered grounds.now found.now.number found.now.ty }
    ensures place { (u : TheUse) → (as_found found.now).name ≡ u.name → found.now.ty ≡ u.type → OneOf (λ other. other ≡ u) (as_list listed.now) → slice_get (as_list listed.now) result ≡ Some u }
    ensures within { result ≤ length listed.now }
{
    grounds.distinct();
    match listed.place(found.name, found.number) {
        Some(place) => place,
        None => listed.len(),
    }
}

/// The place of what is used in the list in which it stands.
fn place_in<'p>(
    grounds: &Grounds,
    mains: &Listed<'p>,
    helpers: &Listed<'p>,
    in_helper: bool,
    found: &Found<'p>,
) -> usize
    requires mains { AreUsesNumbered grounds.now mains.now }
    requires helpers { AreUsesNumbered grounds.now helpers.now }
    requires found { IsNumbered grounds.now found.now.number found.now.ty }
    ensures place { (u : TheUse) → (as_found found.now).name ≡ u.name → found.now.ty ≡ u.type → OneOf (λ other. other ≡ u) (if in_helper || found.now.inside then as_list helpers.now else as_list mains.now) → slice_get (if in_helper || found.now.inside then as_list helpers.now else as_list mains.now) result ≡ Some u }
    ensures within { result ≤ length mains.now ⊎ result ≤ length helpers.now }
{
    if in_helper || found.inside {
        place_of(grounds, helpers, found)
    } else {
        place_of(grounds, mains, found)
    }
}

/// For each use in an instance, the place of what it uses in the list in which that stands.
fn calls<'p>(
    alloc: Global,
    grounds: &Grounds,
    mains: &Listed<'p>,
    helpers: &Listed<'p>,
    in_helper: bool,
    uses: &[Found<'p>],
) -> Result<List<u32>, NoMemory>
    requires mains { (length mains.now ≤ most_instances) × AreUsesNumbered grounds.now mains.now }
    requires helpers { (length helpers.now ≤ most_instances) × AreUsesNumbered grounds.now helpers.now }
    requires uses { AreNumbered grounds.now uses.now }
    ensures { IfOk result (λ places. (nodes : TheList TypedNode) → AreSited nodes (as_uses uses.now) → Each (IsListedAt (as_list mains.now) (as_list helpers.now) in_helper) nodes → AreCalled (as_list mains.now) (as_list helpers.now) in_helper nodes places) }
{
    let mut places = List::new(alloc);
    for found in uses {
        let place = place_in(grounds, mains, helpers, in_helper, found);
        places.push(place as u32)?;
    }
    Ok(places)
}

/// The same for several instances.
pub fn all_calls<'p>(
    alloc: Global,
    grounds: &Grounds,
    mains: &Listed<'p>,
    helpers: &Listed<'p>,
    in_helper: bool,
    bodies: &[Body<'_, 'p>],
) -> Result<List<List<u32>>, NoMemory>
    requires mains { (length mains.now ≤ most_instances) × AreUsesNumbered grounds.now mains.now }
    requires helpers { (length helpers.now ≤ most_instances) × AreUsesNumbered grounds.now helpers.now }
    requires bodies { Each (λ b. AreNumbered grounds.now b.uses) bodies.now }
    ensures { IfOk result (λ places. (source : TheSource) (held : TheList TheBody) → AreHeld source bodies.now held → Each (AreListedIn (as_list mains.now) (as_list helpers.now) in_helper) held → AreAllCalled (as_list mains.now) (as_list helpers.now) in_helper held places) }
{
    let mut all = List::new(alloc);
    for body in bodies {
        all.push(calls(
            alloc,
            grounds,
            mains,
            helpers,
            in_helper,
            body.uses.as_slice(),
        )?)?;
    }
    Ok(all)
}
