//! Why a program's names aren't bound.

ghost use Rattle.lk_names.specs.declared.error.NameError.TheVariants as errors;
ghost use Rattle.std.specs.Prelude.{◌≡◌};

use lk_ast::{NoMemory, Span};
use thiserror::Error;

/// Why a program's names aren't bound, the first reason in text order being answered.
#[derive(Clone, Copy, Debug, PartialEq, Eq, Error)]
pub enum NameError {
    /// No table, function or local name of this word is seen where it is used as one, or a signature has another name than
    /// its function.
    #[error("the name at byte {} is not bound", .0.start)]
    Unbound(Span),
    /// This name, label or tag stands for the second time where each may stand once.
    #[error("the name at byte {} is there twice", .0.start)]
    Twice(Span),
    /// All names are bound, and no function `main` has one parameter and the mark of the client.
    #[error("there is no function main of the client with one parameter")]
    NoMain,
    #[error("out of memory")]
    NoMemory,
}

impl From<NoMemory> for NameError {
    ghost from_gives = { λ _ error. error ≡ errors.NoMemory };

    fn from(_error: NoMemory) -> NameError {
        NameError::NoMemory
    }
}
