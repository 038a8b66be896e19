//! Why a program has no ground program.

ghost use Rattle.lk_mono.specs.declared.error.MonoError.TheVariants as errors;
ghost use Rattle.std.specs.Prelude.{◌≡◌};

use lk_ast::{NoMemory, Span};
use thiserror::Error;

/// What a program is refused for although it is well typed.
#[derive(Clone, Copy, Debug, PartialEq, Eq)]
pub enum ShapeKind {
    /// The answer of `main` has a function in it.
    MainType,
    /// `==` or `<>` at a type with a function in it.
    EqualityAtFunction,
    /// `<`, `<=`, `>` or `>=` at another type than a base.
    OrderAtNonBase,
    /// What a database can't hold or compare, in a query, an update or a deletion or in a function that it calls.
    QueryNotFlat,
    /// A query, an update or a deletion that uses a local name whose value isn't a base or a flat record.
    QueryCapture,
}

/// Why a program has no ground program.
#[derive(Clone, Copy, Debug, PartialEq, Eq, Error)]
pub enum MonoError {
    /// The node here has a type with too many nodes in an instance.
    #[error("a type is too large")]
    TypeTooLarge(Span),
    #[error("too many instances")]
    TooManyInstances,
    #[error("a program of a shape that can't be run")]
    Shape(ShapeKind, Span),
    #[error("out of memory")]
    NoMemory,
}

impl From<NoMemory> for MonoError {
    ghost from_gives = { λ _ error. error ≡ errors.NoMemory };

    fn from(_error: NoMemory) -> MonoError {
        MonoError::NoMemory
    }
}
