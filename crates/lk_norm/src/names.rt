//! What the names in scope stand for.

use lk_ast::{Column, Text};
use lk_query::Captured;

/// What the names in scope stand for: captured values, and behind them the rows of loops, which are made where they are used.
#[derive(Drop)]
pub enum Scope<'a> {
    /// Values that are bound to the numbers from this one on, as parameters from 1 on.
    Captured(u32, &'a [Captured]),
    /// To the first number a record is bound: that of this part, where so many generators are in scope.
    Row(u32, u32, u32, &'a Scope<'a>, &'a Scope<'a>),
    /// To the first number the columns of the generator with the second are bound.
    Columns(u32, u32, &'a [Text], &'a Scope<'a>),
}

/// What one number stands for.
#[derive(Drop)]
pub enum Meant<'s> {
    Nothing,
    /// A parameter.
    Param(u32),
    /// A record of parameters with these columns, from the first one on.
    Params(u32, &'s [Column]),
    /// The record of a part, where so many generators are in scope.
    Row(u32, u32, &'s Scope<'s>),
    /// The columns of a generator.
    Columns(u32, &'s [Text]),
}
