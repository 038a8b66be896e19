//! Counting nodes up to one more than a type may have.

ghost use Rattle.lk_ground_types.specs.Counting.{capped};
ghost use Rattle.std.specs.Prelude.{◌≡◌, ◌+◌};

use lk_types::MOST_NODES;

/// One more than a type may have.
const MOST: usize = MOST_NODES + 1;

/// So many more.
#[tactic(auto, unfolding(crate::specs::Counting::capped))]
pub fn add(counted: usize, more: usize) -> usize
    ensures { result ≡ capped (counted + more) }
{
    if counted >= MOST || more >= MOST {
        return MOST;
    }
    let both = counted + more;
    if both >= MOST { MOST } else { both }
}
