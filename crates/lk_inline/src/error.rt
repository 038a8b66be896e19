//! Why something is not inlined.

ghost use Rattle.lk_inline.specs.declared.error.InlineError.TheVariants as errors;
ghost use Rattle.std.specs.Prelude.{◌≡◌};

use lk_ast::NoMemory;
use thiserror::Error;

/// What a query or a change is refused for.
#[derive(Clone, Copy, Debug, PartialEq, Eq, Error)]
pub enum InlineError {
    #[error("a query with too many nodes")]
    TooManyNodes,
    #[error("out of memory")]
    NoMemory,
}

impl From<NoMemory> for InlineError {
    ghost from_gives = { λ _ error. error ≡ errors.NoMemory };

    fn from(_error: NoMemory) -> InlineError {
        InlineError::NoMemory
    }
}
