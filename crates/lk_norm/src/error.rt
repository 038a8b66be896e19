//! Why a query, an update or a deletion has no SQL.

ghost use Rattle.lk_norm.specs.declared.error.NormError.TheVariants as errors;
ghost use Rattle.std.specs.Prelude.{◌≡◌};

use lk_ast::NoMemory;
use thiserror::Error;

/// Why a query, an update or a deletion has no SQL.
#[derive(Clone, Copy, Debug, PartialEq, Eq, Error)]
pub enum NormError {
    /// The normal form of a query has more than 1,024 branches.
    #[error("too many branches")]
    Branches,
    /// The text has more than 1,048,576 bytes.
    #[error("SQL that is too long")]
    SqlTooLong,
    /// Memory ran out, or parts nest over 4,096 deep.
    #[error("out of memory")]
    NoMemory,
}

impl From<NoMemory> for NormError {
    ghost from_gives = { λ _ error. error ≡ errors.NoMemory };

    fn from(_error: NoMemory) -> NormError {
        NormError::NoMemory
    }
}
