//! The normal form of queries.
//!
//! `specs/Normal` says what it is, and `specs/Captured` how values from outside stand in it; `specs/Sql` says what it is of a query
//! or of a change, and `specs/Limits` which queries have one that is short enough. `normalise` makes it of a query, `change` of an
//! update or a deletion, and `branches` tells how many branches it has. `normal_form_laws` says that it means what was there before
//! (`specs/Law`).
//!
//! Nothing is made before it stands in its select: rows, conditions and generators are lists of references on the stack until then
//! (`names`, `places`), and each piece is paid for with the bytes of its text (`specs/Made`, `specs/Walks`), so that what is too long
//! is refused before it is made.
#![tactic(auto)]

mod changes;
mod counting;
mod error;
mod here;
mod law;
mod lengths;
mod limits;
mod names;
mod over;
mod places;
mod queries;
mod rows;
mod scalars;
mod selects;
mod stop;
mod walk;

pub use changes::change;
pub use error::NormError;
pub use law::normal_form_laws;
pub use queries::{branches, normalise};
