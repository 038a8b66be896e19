//! Why a text has no code.

ghost use Rattle.std.specs.Prelude.{◌≡◌};

use lk_ast::{NoMemory as OutOfMemory, Span};
use lk_infer::InferError;
use lk_mono::MonoError;
use lk_names::NameError;
use lk_parse::ParseError;
use lk_translate::{Size, TranslateError};
use thiserror::Error;

/// Why a text has no code, by what refuses it. Want of memory is never wrapped.
#[derive(Debug, Drop, Error)]
pub enum CompileError {
    #[error("the text is not a program")]
    Parse(ParseError),
    #[error("the names are not bound")]
    Names(NameError),
    #[error("no types are inferred")]
    Infer(InferError),
    #[error("there is no ground program")]
    Ground(MonoError),
    /// What stands here is too large in this.
    #[error("a query, an update or a deletion is too large")]
    Query(Size, Span),
    #[error("out of memory")]
    NoMemory,
}

impl From<OutOfMemory> for CompileError {
    ghost use Rattle.lk_compile.specs.declared.error.CompileError.TheVariants.{NoMemory};

    ghost from_gives = { λ _ error. error ≡ NoMemory };

    fn from(_error: OutOfMemory) -> CompileError {
        CompileError::NoMemory
    }
}

impl From<ParseError> for CompileError {
    ghost use Rattle.lk_compile.specs.Errors.{of_parse};

    ghost from_gives = { λ why error. error ≡ of_parse why };

    fn from(why: ParseError) -> CompileError {
        match why {
            ParseError::NoMemory => CompileError::NoMemory,
            why => CompileError::Parse(why),
        }
    }
}

impl From<NameError> for CompileError {
    ghost use Rattle.lk_compile.specs.Errors.{of_names};

    ghost from_gives = { λ why error. error ≡ of_names why };

    fn from(why: NameError) -> CompileError {
        match why {
            NameError::Unbound(_) | NameError::Twice(_) | NameError::NoMain => CompileError::Names(
                why,
            ),
            NameError::NoMemory => CompileError::NoMemory,
        }
    }
}

impl From<InferError> for CompileError {
    ghost use Rattle.lk_compile.specs.Errors.{of_types};

    ghost from_gives = { λ why error. error ≡ of_types why };

    fn from(why: InferError) -> CompileError {
        match why {
            InferError::IllTyped(_) | InferError::TypeTooLarge(_) => CompileError::Infer(why),
            InferError::NoMemory => CompileError::NoMemory,
        }
    }
}

impl From<MonoError> for CompileError {
    ghost use Rattle.lk_compile.specs.Errors.{of_ground};

    ghost from_gives = { λ why error. error ≡ of_ground why };

    fn from(why: MonoError) -> CompileError {
        match why {
            MonoError::TypeTooLarge(_) | MonoError::TooManyInstances | MonoError::Shape(_, _) => {
                CompileError::Ground(why)
            }
            MonoError::NoMemory => CompileError::NoMemory,
        }
    }
}

impl From<TranslateError> for CompileError {
    ghost use Rattle.lk_compile.specs.Errors.{of_queries};

    ghost from_gives = { λ why error. error ≡ of_queries why };

    fn from(why: TranslateError) -> CompileError {
        match why {
            TranslateError::TooLarge(size, at) => CompileError::Query(size, at),
            TranslateError::NoMemory => CompileError::NoMemory,
        }
    }
}
