use lk_ast::List;
use lk_types::{Scheme, Types};

/// What is inferred of a program.
#[derive(Drop)]
pub struct Typed {
    /// The principal scheme of each function, in text order.
    pub schemes: List<Scheme>,
    /// The principal type of each node, in pre-order, those of the functions one after another in text order.
    pub types: Types,
}
