//! Lowering: a ground program as one table of nodes.
//!
//! `specs/Lowering` says which table is that of a ground program, `specs/Once` that nothing stands in it twice, `specs/Growing` and
//! `specs/Steps` what the walk that makes it keeps;
//! `lower_laws` says what holds of each such table.
#![tactic(auto)]

mod blocks;
mod bodies;
mod captured;
mod children;
mod counts;
mod hints;
mod kinds;
mod labels;
mod lambdas;
mod law;
mod locals;
mod lowering;
mod named;
mod names;
mod type_table;
mod walk;

pub use law::lower_laws;
pub use lowering::lower;
