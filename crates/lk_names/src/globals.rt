//! The tables and functions of a program that are seen.

use lk_scope::Names;

/// The names of tables, and those of functions.
#[derive(Drop)]
pub struct Globals {
    pub tables: Names,
    pub functions: Names,
}
