//! What is translated.

use lk_ast::Span;
use lk_sql::{Change, Sql};

/// A query or the reading of a table in SQL, or an update or a deletion.
#[derive(Drop)]
pub enum Code {
    Select(Sql),
    Change(Change),
}

/// What stands at a site in SQL, with the site's label and the place of its expression.
#[derive(Drop)]
pub struct Translated {
    pub label: u32,
    pub span: Span,
    pub code: Code,
}
