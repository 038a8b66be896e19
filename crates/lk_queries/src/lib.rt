//! Why a query means what its body means where it stands. No code stands here.
//!
//! An expression has two meanings: what it is evaluated to, and what it gives inside of a query. `specs/` says how these are one:
//! `Law` over tables as they are listed, `Order` where readings are answered in any order, `Keys` what a query may be answered with,
//! `Changes` of updates and deletions, and `Database` what its SQL may be answered with.
#![tactic(auto)]

mod law;

pub use law::query_laws;
