ghost use Rattle.std.specs.Prelude.{◌≡◌};

use crate::boxed::Boxed;
use crate::list::List;
use crate::table::Base;
use crate::text::Text;

/// One field of a record.
#[cycle(value)]
pub struct Field {
    pub label: Text,
    pub value: Value,
}

impl Drop for Field {
    #[cycle(value)]
    fn drop(self) {
        let Self { label: _, value: _ } = self;
    }
}

impl Field {
    /// The label and the value.
    pub fn into_parts(self) -> (Text, Value)
        ensures { result ≡ (self.label, self.value) }
    {
        let Self { label, value } = self;
        (label, value)
    }
}

/// A function: the place in the text where it was made (the first byte of its lambda, or of the name in its
/// definition), and the values of its free local names in byte order of the names.
#[cycle(value)]
#[derive(Drop)]
pub struct FunValue {
    pub site: u32,
    pub env: List<Value>,
}

/// What an expression comes to. The fields of a record stand in byte order of their labels; the unit value is the
/// record without fields.
#[cycle(value)]
#[derive(Drop)]
pub enum Value {
    Base(Base),
    List(List<Value>),
    Fields(List<Field>),
    Tag(Text, Boxed<Value>),
    Fun(FunValue),
}
