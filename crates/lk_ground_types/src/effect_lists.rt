//! Lists of effects as sets.

ghost use Rattle.lk_ground_types.specs.Bound.{is_listed, without};
ghost use Rattle.lk_types.specs.Rows.{effects_of};
ghost use Rattle.std.specs.List.{filter};
ghost use Rattle.std.specs.Prelude.{◌≡◌, ◌||◌, IfOk};

use lk_ast::{List, NoMemory};
use lk_types::Effect;
use std::alloc::Global;

/// Whether an effect is among these.
pub fn is_among(effect: Effect, labels: &[Effect]) -> bool
    ensures { result ≡ is_listed labels.now effect }
{
    labels.iter().any(|label| effect == *label)
}

/// The effects that are not among the others.
pub fn those_without(
    alloc: Global,
    labels: &[Effect],
    others: &[Effect],
) -> Result<List<Effect>, NoMemory>
    ensures { IfOk result (λ left. left ≡ without labels.now others.now) }
{
    let mut left = List::new(alloc);
    for label in labels {
        if !is_among(*label, others) {
            left.push(*label)?;
        }
    }
    Ok(left)
}

/// All effects, in byte order.
const ALL: [Effect; 7] = [
    Effect::Local,
    Effect::Move,
    Effect::Print,
    Effect::Rec,
    Effect::Scan,
    Effect::Trap,
    Effect::Write,
];

/// The effects of two lists, in byte order and each once.
pub fn in_order(alloc: Global, labels: &[Effect], more: &[Effect]) -> Result<List<Effect>, NoMemory>
    ensures { IfOk result (λ all. all ≡ effects_of (λ e. is_listed labels.now e || is_listed more.now e)) }
{
    those_in(alloc, &ALL, labels, more)
}

/// Those of the effects that are in one of two lists.
fn those_in(
    alloc: Global,
    effects: &[Effect],
    labels: &[Effect],
    more: &[Effect],
) -> Result<List<Effect>, NoMemory>
    ensures { IfOk result (λ all. all ≡ filter (λ e. is_listed labels.now e || is_listed more.now e) effects.now) }
{
    let mut found = List::new(alloc);
    for effect in effects {
        if is_among(*effect, labels) || is_among(*effect, more) {
            found.push(*effect)?;
        }
    }
    Ok(found)
}
