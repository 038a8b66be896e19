//! Bodies in the bytes of their messages.

/// Where a body stands in the bytes of its message, and how many bytes it has.
#[derive(Clone, Copy)]
pub struct BodyPlace {
    pub start: usize,
    pub len: usize,
}
