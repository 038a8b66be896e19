//! Types, as plain data and as text, and what they mean.
//!
//! `specs/Grounding` says which ground type a type becomes once its variables stand for something, `specs/Solutions` what
//! solves equations of types and which solution is most general, `specs/Schemes` what a scheme stands for, `specs/Sizes`
//! how large types are, and `specs/TypeText` how they are written. `specs/Levels` says which types a table of levels holds,
//! and `specs/Places` which of its levels stand in some of them.
#![tactic(auto)]

mod counts;
mod equation;
mod ground;
mod ground_text;
mod levels;
mod marks;
mod moves;
mod names;
mod one_type;
mod places;
mod planting;
mod scheme;
mod shared_type;
mod side;
mod ty;
mod type_text;
mod variables;

pub use equation::{Binding, Equation, Image, Subst};
pub use ground::{Ground, GroundField};
pub use ground_text::print_ground;
pub use levels::{Level, LevelField, LevelRow, Types};
pub use marks::marked;
pub use names::Names;
pub use one_type::OneType;
pub use scheme::{Lack, Scheme};
pub use shared_type::SharedType;
pub use side::Side;
pub use ty::{Effect, Effects, MOST_NODES, RowTail, Ty, TyField, TyRow, Variable};
pub use type_text::{effect_word, print_type};
pub use variables::push_variables;
