//! Which values are of a ground type, whatever a function is: a program over instances and a table of code say that differently.
//! `specs/Values` defines it for any notion of a function; `fits_laws` says what a value of each type is.
#![tactic(auto)]

mod law;

pub use law::fits_laws;
