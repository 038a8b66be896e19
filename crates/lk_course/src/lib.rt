//! Where a session stands in the evaluation of its program: what the client does by itself, what a visit of the server does for a request,
//! how many steps lead how far, and when the events of a session agree with its evaluation. `specs/` defines all of it over any meaning of
//! code, with no word of nodes or of what frames hold; `course_laws` says what holds of it.
#![tactic(auto)]

mod law;

pub use law::course_laws;
