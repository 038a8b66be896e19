//! Why a text isn't a tables file.

ghost use Rattle.lk_tables.specs.declared.error.TablesError.TheVariants as errors;
ghost use Rattle.std.specs.Prelude.{◌≡◌};

use lk_ast::NoMemory;
use thiserror::Error;

/// Why a text isn't a tables file of given tables, the first reason in the order of `specs/Reading` being answered.
#[derive(Clone, Copy, Debug, PartialEq, Eq, Error)]
pub enum TablesError {
    /// The text has more than 16,777,216 bytes.
    #[error("the tables file has more than 16777216 bytes")]
    TooLong,
    /// The text isn't UTF-8 or no JSON text (RFC 8259) that serde_json reads, or its value is no object.
    #[error("the tables file is not a JSON object")]
    NotJson,
    /// The object has rows for a table that there isn't.
    #[error("the tables file names a table that is not declared")]
    UnknownTable,
    /// What the object has for a table isn't an array of objects with exactly the table's columns, each value of its
    /// column's kind.
    #[error("the tables file has something else than rows of a table")]
    BadRows,
    /// The object has more than 65,536 rows for a table.
    #[error("the tables file has more than 65536 rows for a table")]
    TooManyRows,
    #[error("out of memory")]
    NoMemory,
}

impl From<NoMemory> for TablesError {
    ghost from_gives = { λ _ error. error ≡ errors.NoMemory };

    fn from(_error: NoMemory) -> TablesError {
        TablesError::NoMemory
    }
}
