//! Ground types once more, each equal to the first.

ghost use Rattle.std.specs.Prelude.{◌≡◌, IfOk};

use lk_ast::{List, NoMemory};
use lk_types::{Effect, Ground};
use std::alloc::Global;

/// The same type once more, by one more owner of what stands directly in it. `NoMemory` where there are too many.
pub fn share_type(ty: &Ground) -> Result<Ground, NoMemory>
    ensures { IfOk result (λ same. same ≡ ty.now) }
{
    match ty {
        Ground::Int => Ok(Ground::Int),
        Ground::Bool => Ok(Ground::Bool),
        Ground::Text => Ok(Ground::Text),
        Ground::List(item) => item.share().map(Ground::List),
        Ground::Fields(fields) => fields.share().map(Ground::Fields),
        Ground::Tags(tags) => tags.share().map(Ground::Tags),
        Ground::Fun(params, effects, answer) => {
            let params = params.share()?;
            let effects = effects.share()?;
            Ok(Ground::Fun(params, effects, answer.share()?))
        }
    }
}

/// The same effects once more. `NoMemory` where memory runs out.
pub fn copy_effects(alloc: Global, effects: &[Effect]) -> Result<List<Effect>, NoMemory>
    ensures { IfOk result (λ copy. copy ≡ effects.now) }
{
    let mut copies = List::new(alloc);
    for effect in effects {
        copies.push(*effect)?;
    }
    Ok(copies)
}
