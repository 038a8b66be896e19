use crate::shared_type::SharedType;
use lk_ast::{List, Text};

/// The row variable of that number stands for no row with this label.
#[derive(Drop)]
pub struct Lack {
    pub var: u32,
    pub label: Text,
}

/// A type for each choice of what its variables stand for. Any order of the `lacks` says the same. Inference puts them in the
/// order of their variables, then in byte order of their labels, and leaves out those that the body shows anyhow, since a row has
/// no label twice.
pub struct Scheme {
    pub body: SharedType,
    pub lacks: List<Lack>,
}

impl Drop for Scheme {
    fn drop(self) {
        let Self { body: _, lacks: _ } = self;
    }
}
