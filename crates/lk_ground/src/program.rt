//! Programs whose functions have ground types.

use lk_ast::{FunDef, List, Program};
use lk_types::Ground;

/// A function of a program at a ground type: an instance.
#[derive(Drop)]
pub struct GroundFun<'p> {
    pub function: &'p FunDef,
    pub ty: Ground,
    /// The types of the nodes of its body in pre-order.
    pub types: List<Ground>,
    /// For each use of a function in its body, in text order, the place of the instance that is used: among `helpers` for a
    /// use inside a query, an update or a deletion, or in a helper, else among `funs`.
    pub calls: List<u32>,
}

/// The instances of a program: those that an evaluation of `main` may use, `main` first, and those that its queries, updates
/// and deletions use.
#[derive(Drop)]
pub struct GroundProgram<'p> {
    pub program: &'p Program,
    pub funs: List<GroundFun<'p>>,
    pub helpers: List<GroundFun<'p>>,
}
