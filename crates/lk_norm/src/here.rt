//! Where a part stands that is made into SQL.

use crate::names::Scope;
use crate::over::Over;
use std::alloc::Global;

/// The parts, how many generators are in scope, and what the names in scope stand for.
#[derive(Clone, Copy)]
pub struct Here<'a> {
    pub alloc: Global,
    pub over: &'a Over<'a>,
    pub count: u32,
    pub scope: &'a Scope<'a>,
}
