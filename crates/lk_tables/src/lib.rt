//! Tables as JSON (RFC 8259): a tables file as rows, and rows as a tables file.
//!
//! A tables file is an object from names of tables to arrays of rows, each row an object with exactly the columns of its
//! table: `{"things":[{"n":1,"word":"a"}]}`. `specs/Reading` says which rows a file has and why one is refused,
//! `specs/Printing` what is written of rows, and `specs/Law` that it is read back.
#![tactic(auto)]

mod checks;
mod error;
mod file;
mod named;
mod printing;
mod rows;

pub use error::TablesError;
pub use file::read_tables;
pub use printing::print_tables;
