use crate::boxed::Boxed;
use crate::list::List;
use crate::place::Word;

/// A label with its type in a record type, or a tag with its type in a variant type.
#[cycle(signature)]
pub struct SigField {
    pub label: Word,
    pub ty: SigType,
}

impl Drop for SigField {
    #[cycle(signature)]
    fn drop(self) {
        let Self { label: _, ty: _ } = self;
    }
}

/// The type of a signature, its fields and tags in text order.
#[cycle(signature)]
pub enum SigType {
    Int,
    Bool,
    Text,
    List(Boxed<SigType>),
    Fields(List<SigField>),
    Tags(List<SigField>),
    Fun(List<SigType>, Boxed<SigType>),
}

impl Drop for SigType {
    #[cycle(signature)]
    fn drop(self) {
        match self {
            Self::Int => {}
            Self::Bool => {}
            Self::Text => {}
            Self::List(_) => {}
            Self::Fields(_) => {}
            Self::Tags(_) => {}
            Self::Fun(_, _) => {}
        }
    }
}

/// A signature: the function that it names, and the type that it gives.
pub struct Sig {
    pub name: Word,
    pub ty: SigType,
}

impl Drop for Sig {
    fn drop(self) {
        let Self { name: _, ty: _ } = self;
    }
}
