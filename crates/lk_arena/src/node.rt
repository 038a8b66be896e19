use lk_ast::{List, Text};

/// The constructors of types. Their parts are: of a list its element; of a record and of a variant its row; of a function its
/// effects, its result and then its parameters.
#[derive(Clone, Copy, PartialEq, Eq)]
pub enum Head {
    Int,
    Bool,
    Text,
    List,
    Fields,
    Tags,
    Fun,
}

/// A field of a row, with the node of its type. In a row of effects each effect is a field too, of the type `()`.
#[derive(Drop)]
pub struct Field {
    pub label: Text,
    pub node: usize,
}

/// What is known of a node.
#[derive(Drop)]
pub enum Shape {
    /// A type of which nothing is known.
    Free,
    /// A row of which nothing is known.
    Open,
    /// The row without fields.
    Empty,
    /// A constructor, and the nodes of its parts.
    Made(Head, List<usize>),
    /// Fields, and the node of the row that they stand before.
    Row(List<Field>, usize),
}

/// Two nodes that are to be equal.
#[derive(Clone, Copy)]
pub struct Pair {
    pub left: usize,
    pub right: usize,
}
