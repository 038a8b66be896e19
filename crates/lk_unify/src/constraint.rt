use lk_types::Equation;

/// When the size of what the sides of an equation become matters.
#[derive(Clone, Copy, PartialEq, Eq)]
pub enum Sizing {
    /// With each equation from its own on.
    Always,
    /// With each late equation from its own on, and with no other.
    Late,
    /// Never.
    Never,
}

/// An equation that is to hold, and when its size matters.
#[derive(Drop)]
pub struct Constraint {
    pub equation: Equation,
    pub sizing: Sizing,
}
