//! Unification of types with rows: the most general solution of a list of equations.
//!
//! Equations become nodes that are merged into classes (`lk_arena`). `specs/Loading` and `specs/Solving` say what nodes have to do
//! with equations, `specs/Models` that there are values of the nodes, and with a variable for each class of which nothing is known;
//! `specs/Reading` what is read back of those, and `specs/Small` with which values equations are nodes. `specs/Constraints` says what
//! solves constraints, equations whose sizes needn't matter everywhere, and `specs/SideSizes` which sizes are looked at.
#![tactic(auto)]

mod chain;
mod constrained;
mod constraint;
mod levels;
mod load;
mod load_levels;
mod load_sides;
mod loader;
mod named_nodes;
mod numbers;
mod ordered;
mod reading;
mod row_fields;
mod row_places;
mod shared;
mod side_sizes;
mod small;
mod solvable;
mod unifying;
mod variables;

pub use constrained::{solve, solve_first};
pub use constraint::{Constraint, Sizing};
pub use ordered::first_unsolvable;
pub use unifying::{UnifyError, unify};
