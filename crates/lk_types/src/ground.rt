use crate::ty::Effect;
use lk_ast::{List, Shared, Text};

/// A field of a record, or a tag of a variant with the type of what stands behind it.
#[cycle(ground)]
pub struct GroundField {
    pub label: Text,
    pub ty: Ground,
}

impl Drop for GroundField {
    #[cycle(ground)]
    fn drop(self) {
        let Self { label: _, ty: _ } = self;
    }
}

/// A type without variables. Fields, tags and effects stand in byte order, each once. What stands in a type may have several owners,
/// so a type that is handed on takes no more room for it.
#[cycle(ground)]
pub enum Ground {
    Int,
    Bool,
    Text,
    List(Shared<Ground>),
    Fields(Shared<List<GroundField>>),
    Tags(Shared<List<GroundField>>),
    /// Parameters, effects and result.
    Fun(Shared<List<Ground>>, Shared<List<Effect>>, Shared<Ground>),
}

impl Drop for Ground {
    #[cycle(ground)]
    fn drop(self) {
        match self {
            Self::Int => {}
            Self::Bool => {}
            Self::Text => {}
            Self::List(_) => {}
            Self::Fields(_) => {}
            Self::Tags(_) => {}
            Self::Fun(_, _, _) => {}
        }
    }
}
