//! What an expression stands in.

use lk_equations::Globals;
use lk_types::Effects;

/// What an expression stands in: what its group of functions sees, and the effects of its function.
#[derive(Clone, Copy)]
pub struct Context<'c, 'g, 'p> {
    pub globals: &'c Globals<'g, 'p>,
    pub effects: &'c Effects,
}
