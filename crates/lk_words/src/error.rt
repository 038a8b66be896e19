//! Why words ask for nothing.

ghost use Rattle.lk_words.specs.declared.error.WordsError.TheVariants as errors;
ghost use Rattle.std.specs.Prelude.{◌≡◌};

use lk_ast::NoMemory;
use thiserror::Error;

/// Why words ask for nothing.
#[derive(Clone, Copy, Debug, PartialEq, Eq, Error)]
pub enum WordsError {
    /// No form has the words.
    #[error("no form of a command has the words")]
    NoForm,
    #[error("out of memory")]
    NoMemory,
}

impl From<NoMemory> for WordsError {
    ghost from_gives = { λ _ error. error ≡ errors.NoMemory };

    fn from(_error: NoMemory) -> WordsError {
        WordsError::NoMemory
    }
}
