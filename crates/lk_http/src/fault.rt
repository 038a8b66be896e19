//! What is wrong with the length of a body.

/// What is wrong with what a head says of the length of its body.
#[derive(Clone, Copy)]
pub enum LengthFault {
    /// It says nothing.
    Missing,
    /// It says it more than once, or not as a number.
    Malformed,
    /// There would be more bytes than a body may have.
    Large,
}
