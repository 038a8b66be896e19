//! Nodes by number, each in a class of equal ones.

ghost use Rattle.std.specs.Prelude.{◌≡◌, ◌<◌, ◌++◌, [], ◌∷◌, length, map, OnOk, IfOk, slice_set};
ghost use Rattle.lk_classes.specs.Classes.{class_at, relabeled};
ghost use Rattle.lk_arena.specs.Shapes.{fields_in, parts_of, shape_at, AllBelow, HasFields, IsArena, IsDistinct};
ghost use Rattle.lk_arena.specs.Steps.{Adds, AreApart};

use crate::node::Shape;
use lk_ast::{List, NoMemory};
use lk_classes::Classes;
use std::alloc::Global;
use std::mem;

/// Nodes, with what is known of each and the name of its class. The name is the number of one of the nodes in the class, and
/// what is known of the class is what is known of that node.
#[derive(Drop)]
pub struct Arena {
    pub shapes: List<Shape>,
    pub classes: Classes,
}

impl Arena {
    /// No nodes, which takes no memory.
    pub fn new(alloc: Global) -> Arena
        ensures shapes { result.shapes ≡ [] }
        ensures classes { result.classes ≡ [] }
        ensures arena { IsArena result.shapes result.classes }
    {
        Arena {
            shapes: List::new(alloc),
            classes: Classes::new(alloc),
        }
    }

    /// Adds a node of which this is known, in a class of its own. The answer is its number.
    pub fn add_node(&mut self, shape: Shape) -> Result<usize, NoMemory>
        requires arena { IsArena self.old.shapes self.old.classes }
        requires parts { AllBelow (length self.old.shapes) (parts_of shape) }
        requires distinct { IsDistinct (fields_in shape) }
        requires filled { HasFields shape }
        ensures { IfOk result (λ n. Adds shape n self.old.shapes self.old.classes self.new.shapes self.new.classes) }
    {
        let number = self.push(shape)?;
        Ok(number)
    }

    /// Adds a node that need not fit the others. The answer is its number.
    pub fn push(&mut self, shape: Shape) -> Result<usize, NoMemory>
        ensures number { IfOk result (λ n. n ≡ length self.old.shapes) }
        ensures shapes { OnOk result (self.new.shapes ≡ self.old.shapes ++ shape ∷ []) }
        ensures classes { OnOk result (self.new.classes ≡ self.old.classes ++ length self.old.classes ∷ []) }
    {
        let number = self.shapes.len();
        self.classes.add()?;
        self.shapes.push(shape)?;
        Ok(number)
    }

    /// The name of a node's class.
    pub fn class_of(&self, node: usize) -> usize
        requires { node < length self.now.classes }
        ensures { result ≡ class_at self.now.classes node }
    {
        self.classes.name_of(node)
    }

    /// What is known of a node.
    pub fn shape_of(&self, node: usize) -> &Shape
        requires { node < length self.now.shapes }
        ensures { result.now ≡ shape_at self.now.shapes node }
    {
        self.shapes.at(node)
    }

    /// Says more of a node.
    pub(crate) fn put_shape(&mut self, alloc: Global, node: usize, shape: Shape)
        requires { node < length self.old.shapes }
        ensures shapes { self.new.shapes ≡ slice_set self.old.shapes node shape }
        ensures classes { self.new.classes ≡ self.old.classes }
    {
        let mut shapes = mem::replace(&mut self.shapes, List::new(alloc)).into_vec();
        shapes[node] = shape;
        self.shapes = List::from_vec(shapes);
    }

    /// Puts all nodes of one class into another one.
    pub(crate) fn relabel(&mut self, from: usize, to: usize)
        requires { AreApart (length self.old.classes) self.old.classes from to }
        ensures shapes { self.new.shapes ≡ self.old.shapes }
        ensures classes { self.new.classes ≡ map (relabeled from to) self.old.classes }
    {
        self.classes.unite(from, to);
    }
}
