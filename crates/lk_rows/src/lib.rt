//! Signatures: the types that a program writes down.
#![tactic(auto)]

mod error;
mod signature;
mod types;

pub use error::SigError;
pub use signature::read_sig;
pub use types::read_type;
