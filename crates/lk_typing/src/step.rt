use lk_ast::Span;
use lk_types::{Equation, Side};

/// What a walk through a text says of types.
#[derive(Drop)]
pub enum Said {
    /// Two types are the same.
    Same(Equation),
    /// A node of the text has this type, and the variable of that number stands for it from there on.
    Typed(u32, Side),
}

/// What is said at a place of the text: at a node, or at the name of a function.
#[derive(Drop)]
pub struct Step {
    pub at: Span,
    pub said: Said,
}
