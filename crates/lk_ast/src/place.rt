use crate::text::Text;

/// A place in the program's text, in bytes from its beginning; the end isn't included.
#[derive(Clone, Copy, Debug, PartialEq, Eq)]
pub struct Span {
    pub start: u32,
    pub end: u32,
}

/// Where a function runs: at its mark, or without one wherever it is called.
#[derive(Clone, Copy, Debug, PartialEq, Eq)]
pub enum Loc {
    Client,
    Server,
    Any,
}

/// A name, label or tag with its place in the text.
pub struct Word {
    pub at: Span,
    pub text: Text,
}

impl Drop for Word {
    fn drop(self) {
        let Self { at: _, text: _ } = self;
    }
}
