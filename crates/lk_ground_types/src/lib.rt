//! Ground types: a table of them, each once and named by its number, which have functions in them or may stand in queries, and what
//! types become once it is known what stands for their variables.
//!
//! `specs/Grounds` has the table, `specs/Becoming` what a level of a type becomes, `specs/Sizes` says how large ground types are,
//! `specs/Shapes` which a query may have, `specs/Least` what stands for variables that nothing is said of, and `ground_type_laws` what
//! follows for what types become.
#![tactic(auto)]

mod all_types;
mod bindings;
mod copies;
mod counter;
mod effect_lists;
mod effects;
mod entries;
mod ground_level;
mod grounds;
mod law;
mod level_parts;
mod matching;
mod numbers_by_key;
mod part_row;
mod shapes;

pub use all_types::{ground_all, ground_one};
pub use bindings::Bindings;
pub use copies::{copy_effects, share_type};
pub use effects::effects_of;
pub use ground_level::{GroundLevel, GroundPart};
pub use grounds::Grounds;
pub use law::ground_type_laws;
pub use shapes::{has_function, is_base, is_flat, is_list, is_query_type};
