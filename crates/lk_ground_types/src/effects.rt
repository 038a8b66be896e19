//! The effects of ground types.

ghost use Rattle.lk_ground_types.specs.Functions.{effects_in};
ghost use Rattle.std.specs.Prelude.{◌≡◌};

use lk_types::{Effect, Ground};

/// The effects, of a function, else none.
pub fn effects_of(ty: &Ground) -> &[Effect]
    ensures { result.now ≡ effects_in ty.now }
{
    match ty {
        Ground::Fun(_, effects, _) => effects.get().as_slice(),
        _ => &[],
    }
}
