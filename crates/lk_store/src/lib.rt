//! Stores of tables: one in memory, one in memory that fails on demand, and the choice of a store by its name.
#![tactic(auto)]

mod choice;
mod failing;
mod memory;
mod named_tables;

pub use choice::pick;
pub use failing::FailingStore;
pub use memory::MemoryStore;
