//! The rows in scope.

ghost use Rattle.lk_exec.specs.Scopes.{entered, scope_of};
ghost use Rattle.lk_sql.specs.Meaning.{no_cells, no_rows};
ghost use Rattle.std.specs.Option.{option_copied, unwrap_or};
ghost use Rattle.std.specs.Prelude.{◌≡◌, IfOk};

use lk_ast::{List, NoMemory, Row};
use std::alloc::Global;

/// The row of a generator, by its number.
#[derive(Clone, Copy)]
pub struct Bound<'a> {
    pub number: u32,
    pub row: &'a Row,
}

/// The row of the innermost generator of that number.
pub fn row_at<'a>(scope: &[Bound<'a>], number: u32) -> Option<&'a Row>
    ensures { unwrap_or (option_copied result) no_cells ≡ scope_of scope.now number }
{
    for place in (0..scope.len()).rev() {
        let bound = &scope[place];
        if bound.number == number {
            return Some(bound.row);
        }
    }
    None
}

/// The same rows once more.
pub fn same_rows<'a>(alloc: Global, scope: &[Bound<'a>]) -> Result<List<Bound<'a>>, NoMemory>
    ensures { IfOk result (λ copy. copy ≡ scope.now) }
{
    Ok(List::from_vec(Vec::from_slice(alloc, scope)?))
}
