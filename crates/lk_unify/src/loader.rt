//! Nodes, which of them stand for variables, and which are used again where the same is to be made.

use crate::named_nodes::NamedNodes;
use lk_arena::{Arena, Shape};
use lk_ast::List;
use lk_types::Variable;
use std::alloc::Global;
use std::collections::BTreeMap;

/// What a node stands for: a type, a row of fields or of effects, the type `()` that an effect stands with, or the row of that type.
#[derive(Clone, Copy, PartialEq, Eq)]
pub enum NodeKind {
    Types,
    Fields,
    Effects,
    Unit,
    Nothing,
}

/// A node, with what it was made for.
#[derive(Drop)]
pub struct MadeNode {
    pub kind: NodeKind,
    pub shape: Shape,
    pub node: usize,
}

/// Nodes, which of them stands for which variable, and nodes that are used again, by a number of what they were made for. Where two
/// have one number the later one is kept. Which of the nodes are closed, so that no variable stands in them, is noted at their
/// numbers.
#[derive(Drop)]
pub struct Loader {
    pub arena: Arena,
    pub names: NamedNodes,
    pub made: BTreeMap<u64, MadeNode>,
    pub closed: List<bool>,
}

impl Loader {
    ghost use Rattle.lk_arena.specs.Kinds.{Kind};
    ghost use Rattle.lk_unify.specs.Loading.{node_for, IsLoader, IsKinded};
    ghost use Rattle.lk_types.specs.declared.ty.Variable.{Variable as TheVariable};
    ghost use Rattle.std.specs.Prelude.{◌≡◌, ℕ, [], None};

    /// No nodes, which takes no memory.
    pub fn new(alloc: Global) -> Loader
        ensures whole { IsLoader result }
        ensures shapes { result.arena.shapes ≡ [] }
        ensures classes { result.arena.classes ≡ [] }
        ensures kinds { (kind : ℕ → Kind) → IsKinded result kind }
        ensures names { (x : TheVariable) → node_for result x ≡ None }
    {
        Loader {
            arena: Arena::new(alloc),
            names: NamedNodes::new(alloc),
            made: BTreeMap::new(alloc),
            closed: List::new(alloc),
        }
    }

    /// The node that stands for a variable.
    pub fn node_for(&self, variable: Variable) -> Option<usize>
        ensures { result ≡ node_for self.now variable }
    {
        self.names.get(variable)
    }
}
