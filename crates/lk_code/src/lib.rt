//! Code: functions and frames by their numbers over one table of nodes, and what each label runs at the server.
//!
//! `specs/Tables` has its look-ups, `specs/Sound` what holds of all code, `specs/Values` which values are of a type where functions are
//! labels, `specs/Running` what a place needs; `specs/Meaning` says what labels and frames stand for, and `meaning_laws` what holds of
//! that. `specs/Acting` says what typed nodes do, `specs/Waiting` what frames wait for, and `sound_laws` that no step lacks a rule.
#![tactic(auto)]

mod chains;
mod code;
mod fitting;
mod infos;
mod law;
mod look;
mod runs;
mod tables;

pub use chains::chain_fits;
pub use code::{Code, frame_of, fun_of, program_of};
pub use fitting::{args_fit, fits};
pub use infos::{FrameInfo, FunInfo, FunKind};
pub use law::{meaning_laws, sound_laws};
pub use look::{body_at, cont_at, form_at, home_of};
pub use runs::{is_at, runs_at};
pub use tables::{BlockCode, CodeTables, Contents, Frame, Home, Origin};
