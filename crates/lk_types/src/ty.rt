ghost use Rattle.std.specs.Prelude.{◌≡◌, IfOk};

use lk_ast::{Boxed, List, NoMemory, Text};
use std::alloc::Global;

/// The most nodes that a type may have: its bases, lists, records, variants, functions, labels, effects and variables, each of
/// which counts one.
pub const MOST_NODES: usize = 4096;

/// Where a row ends: nowhere else, or in what its variable stands for.
#[derive(Clone, Copy, Debug, PartialEq, Eq)]
pub enum RowTail {
    Closed,
    Var(u32),
}

/// What a call may do. In byte order of the words `local`, `move`, `print`, `rec`, `scan`, `trap` and `write`.
#[derive(Clone, Copy, Debug, PartialEq, Eq)]
pub enum Effect {
    Local,
    Move,
    Print,
    Rec,
    Scan,
    Trap,
    Write,
}

/// The effects of a function: those that are named, and then those of the tail. In any order they are the same effects, and with one
/// of them twice none. Types that are printed have them in byte order.
#[derive(Drop)]
pub struct Effects {
    pub labels: List<Effect>,
    pub tail: RowTail,
}

impl Effects {
    /// The same effects once more.
    pub fn copy(&self, alloc: Global) -> Result<Effects, NoMemory>
        ensures { IfOk result (λ copy. copy ≡ self.now) }
    {
        let mut labels = List::new(alloc);
        for label in self.labels.as_slice() {
            labels.push(*label)?;
        }
        Ok(Effects {
            labels,
            tail: self.tail,
        })
    }
}

/// A field of a record, or a tag of a variant with the type of what stands behind it.
#[cycle(ty)]
pub struct TyField {
    pub label: Text,
    pub ty: Ty,
}

impl Drop for TyField {
    #[cycle(ty)]
    fn drop(self) {
        let Self { label: _, ty: _ } = self;
    }
}

/// Fields, and then those of the tail. In any order they are the same row, and with a label twice none. Types that are printed have
/// them in byte order of their labels.
#[cycle(ty)]
#[derive(Drop)]
pub struct TyRow {
    pub fields: List<TyField>,
    pub tail: RowTail,
}

/// A type. Variables of types, of rows and of effects are three kinds: the variable of a type and that of a row may
/// have one number, and have nothing to do with each other.
///
/// No definition of what a type means rests on the order of fields and effects.
#[cycle(ty)]
pub enum Ty {
    Int,
    Bool,
    Text,
    List(Boxed<Ty>),
    Fields(TyRow),
    Tags(TyRow),
    /// Parameters, effects and result.
    Fun(List<Ty>, Effects, Boxed<Ty>),
    Var(u32),
}

impl Drop for Ty {
    #[cycle(ty)]
    fn drop(self) {
        match self {
            Self::Int => {}
            Self::Bool => {}
            Self::Text => {}
            Self::List(_) => {}
            Self::Fields(_) => {}
            Self::Tags(_) => {}
            Self::Fun(_, _, _) => {}
            Self::Var(_) => {}
        }
    }
}

/// A variable of one of the three kinds.
#[derive(Clone, Copy, Debug, PartialEq, Eq, PartialOrd, Ord)]
pub enum Variable {
    Plain(u32),
    Row(u32),
    Effects(u32),
}
