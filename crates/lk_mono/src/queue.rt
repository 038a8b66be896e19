//! Lists of instances that grow as these are walked.

ghost use Rattle.lk_mono.specs.Looks.{AreNumbered, IsNumbered, as_found, as_uses};
ghost use Rattle.lk_mono.specs.Places.{is_use};
ghost use Rattle.lk_mono.specs.Queues.{AreFoundOf, AreUsesNumbered, IsAdded, IsQueueOf, as_list, as_wanted};
ghost use Rattle.lk_sound.specs.Nodes.{Use as TheUse};
ghost use Rattle.lk_types.specs.Each.{OneOf};
ghost use Rattle.std.specs.List.{position};
ghost use Rattle.std.specs.Prelude.{◌≡◌, ℕ, [], ◌∷◌, IfOk, List as TheList, None, OnOk, false, true};

use crate::listed::Listed;
use crate::look::Found;
use lk_ast::{NoMemory, Text};
use lk_ground_types::{Grounds, share_type};
use lk_types::Ground;

/// A function at a type: an instance. The type has this number in the table.
#[derive(Drop)]
pub struct Use<'p> {
    pub name: &'p Text,
    pub ty: Ground,
    pub number: u32,
}

/// Which uses are looked for, by where they stand.
#[derive(Clone, Copy)]
pub enum Wanted {
    /// Outside of queries, updates and deletions.
    Outside,
    /// Inside of these.
    Inside,
    Everywhere,
}

impl Wanted {
    /// Whether one that stands there is looked for.
    fn holds(self, inside: bool) -> bool
        ensures { result ≡ as_wanted self inside }
    {
        match self {
            Wanted::Outside => !inside,
            Wanted::Inside => inside,
            Wanted::Everywhere => true,
        }
    }
}

/// A list of instances, and for how many more there is room.
#[derive(Drop)]
pub struct Queue<'p> {
    pub listed: Listed<'p>,
    pub room: usize,
}

/// Whether a function at the type of a number is in the list.
fn is_listed<'p>(grounds: &Grounds, listed: &Listed<'p>, found: &Found<'p>) -> bool
    requires listed { AreUsesNumbered grounds.now listed.now }
    requires found { IsNumbered grounds.now found.now.number found.now.ty }
    ensures yes { result ≡ true → OneOf (λ other. other ≡ record { name = found.now.name.now; type = found.now.ty }) (as_list listed.now) }
    ensures no { result ≡ false → OneOf (λ other. other ≡ record { name = found.now.name.now; type = found.now.ty }) (as_list listed.now) → ⊥ }
    ensures lacking { result ≡ false → position (is_use found.now.name.now found.now.number) listed.now ≡ None }
{
    grounds.distinct();
    listed.place(found.name, found.number).is_some()
}

/// Lists what is used, if the list lacks it. Whether there was room.
fn add_use<'p>(
    grounds: &Grounds,
    queue: &mut Queue<'p>,
    found: &Found<'p>,
) -> Result<bool, NoMemory>
    requires listed { AreUsesNumbered grounds.now queue.old.listed }
    requires found { IsNumbered grounds.now found.now.number found.now.ty }
    ensures added { IfOk result (λ ok. (others : ℕ) (list : TheList TheUse) (u : TheUse) → (as_found found.now).name ≡ u.name → found.now.ty ≡ u.type → IsQueueOf others list queue.old → IsAdded others list (u ∷ []) queue.new ok) }
    ensures numbered { OnOk result (AreUsesNumbered grounds.now queue.new.listed) }
{
    if is_listed(grounds, &queue.listed, found) {
        return Ok(true);
    }
    if queue.room == 0 {
        return Ok(false);
    }
    queue.room -= 1;
    let ty = share_type(&found.ty)?;
    queue.listed.push(Use {
        name: found.name,
        ty,
        number: found.number,
    })?;
    Ok(true)
}

/// Lists these uses, those that are looked for. Whether there was room.
pub fn add_uses<'p>(
    grounds: &Grounds,
    queue: &mut Queue<'p>,
    wanted: Wanted,
    uses: &[Found<'p>],
) -> Result<bool, NoMemory>
    requires listed { AreUsesNumbered grounds.now queue.old.listed }
    requires uses { AreNumbered grounds.now uses.now }
    ensures added { IfOk result (λ ok. (others : ℕ) (list us : TheList TheUse) → AreFoundOf (as_wanted wanted) (as_uses uses.now) us → IsQueueOf others list queue.old → IsAdded others list us queue.new ok) }
    ensures numbered { OnOk result (AreUsesNumbered grounds.now queue.new.listed) }
{
    for found in uses {
        if wanted.holds(found.inside) && !add_use(grounds, queue, found)? {
            return Ok(false);
        }
    }
    Ok(true)
}
