//! What is said of expressions, by their operators and forms: scopes of names, tables, and the equations of each.
#![tactic(auto)]

mod copies;
mod forms;
mod functions;
mod heads;
mod known;
mod operators;
mod own;
mod proper;
mod records;
mod renamed;
mod scope;
mod signatures;
mod tables;
mod told;
mod unknowns;

pub use copies::copy_type;
pub use forms::{
    change_own, elements_are, for_own, is_marked, lambda_own, no_effects, one_type, query_own,
    switch_own,
};
pub use heads::own_of;
pub use known::Known;
pub use own::{Globals, Own, never, one, only};
pub use renamed::moved;
pub use scope::Scope;
pub use signatures::{Signed, signing};
pub use tables::Tables;
pub use told::{Told, has_if, joined, nothing};
pub use unknowns::{any_effects, effect_before, function_of, row_of, same, unit, variant_of};
