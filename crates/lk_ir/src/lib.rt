//! The form of programs that compiled code is made of: a flat table of nodes, each of which names its children by their numbers, and
//! what continuations keep. `specs/LetNormal` and `specs/Continuing` say what such a table means, without continuations and with
//! them; `ir_laws` says that both mean the same.
#![tactic(auto)]

mod ir;
mod law;
mod nodes;
mod operate;
mod same;

pub use ir::{CpsProgram, Ir};
pub use law::ir_laws;
pub use nodes::{
    Block, Body, CaseForm, Choice, Cont, Conts, Form, Forms, Kept, Kind, LabelForm, Op, Touched,
};
pub use operate::operate_op;
pub use same::{same_effects, same_type, same_types};
