use crate::side::Side;
use crate::ty::{Effects, Ty, TyRow};
use lk_ast::List;

/// What is put for a variable, by its kind.
pub enum Image {
    Plain(Ty),
    Row(TyRow),
    Effects(Effects),
}

impl Drop for Image {
    fn drop(self) {
        match self {
            Self::Plain(_) => {}
            Self::Row(_) => {}
            Self::Effects(_) => {}
        }
    }
}

/// A variable of the image's kind, and what is put for it.
#[derive(Drop)]
pub struct Binding {
    pub var: u32,
    pub is: Image,
}

/// A substitution: what is put for each of some variables. Of two bindings of one variable the first counts.
#[derive(Drop)]
pub struct Subst {
    pub binds: List<Binding>,
}

/// Two types that are to become the same.
pub struct Equation {
    pub left: Side,
    pub right: Side,
}

impl Drop for Equation {
    fn drop(self) {
        let Self { left: _, right: _ } = self;
    }
}
