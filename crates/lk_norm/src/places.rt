//! Where the branches of lists stand, and what becomes of them.

use crate::names::Scope;
use lk_ast::Text;

/// A record.
#[derive(Drop)]
pub enum Row<'s> {
    /// That of a part, where so many generators are in scope.
    Part(u32, u32, &'s Scope<'s>),
    /// The columns of a generator.
    Columns(u32, &'s [Text]),
}

/// The generators before a branch, the innermost one first: its number and its table.
#[derive(Drop)]
pub enum Froms<'s> {
    Nothing,
    More(&'s Froms<'s>, u32, &'s Text),
}

/// The condition before a branch: what is tested, the innermost test first. It is the base of a part, or its negation where the
/// truth says so, where so many generators are in scope.
#[derive(Drop)]
pub enum Tests<'s> {
    Nothing,
    More(&'s Tests<'s>, u32, bool, u32, &'s Scope<'s>),
}

/// What becomes of each branch: a select, or the branches of the first part, where the branch's row is bound to the number.
#[derive(Drop)]
pub enum Then<'s> {
    Select,
    Body(u32, u32, &'s Scope<'s>, &'s Then<'s>),
}

/// Where a branch stands. So many generators are outside of its select.
#[derive(Drop)]
pub struct Place<'s> {
    pub outer: u32,
    pub froms: &'s Froms<'s>,
    pub tests: &'s Tests<'s>,
    pub then: &'s Then<'s>,
}
