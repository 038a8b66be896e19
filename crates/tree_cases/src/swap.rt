//! Tables with two columns of numbers, and an update that swaps these.

ghost use Rattle.tree_cases.specs.Swap.{set as set_to, swap as two_sets, two_numbers};
ghost use Rattle.lk_ast.specs.declared.table.BaseKind.TheVariants.{Int};
ghost use Rattle.std.specs.Prelude.{◌≡◌, IfOk};

use lk_ast::{BaseKind, Column, List, NoMemory, TableDef, Text};
use lk_sql::{Out, Scalar};
use std::alloc::Global;

/// The table of this name, with the columns `a` and `b` of numbers.
pub fn table(alloc: Global, name: &str) -> Result<TableDef, NoMemory>
    ensures { IfOk result (λ def. def.columns ≡ two_numbers) }
{
    let name = Text::from_str(alloc, name)?;
    let mut columns = List::new(alloc);
    columns.push(column(alloc, "a")?)?;
    columns.push(column(alloc, "b")?)?;
    Ok(TableDef { name, columns })
}

fn column(alloc: Global, label: &str) -> Result<Column, NoMemory>
    ensures { IfOk result (λ column. column ≡ record { label = label.now; kind = Int }) }
{
    let label = Text::from_str(alloc, label)?;
    let kind = BaseKind::Int;
    Ok(Column { label, kind })
}

/// Sets `a` to `b`, and `b` to `a`.
pub fn swap(alloc: Global) -> Result<List<Out>, NoMemory>
    ensures { IfOk result (λ sets. sets ≡ two_sets) }
{
    let mut sets = List::new(alloc);
    sets.push(set(alloc, "a", "b")?)?;
    sets.push(set(alloc, "b", "a")?)?;
    Ok(sets)
}

/// Sets a column to another one of the same row.
fn set(alloc: Global, label: &str, other: &str) -> Result<Out, NoMemory>
    ensures { IfOk result (λ out. out ≡ set_to label.now other.now) }
{
    let label = Text::from_str(alloc, label)?;
    let scalar = Scalar::Column(1, Text::from_str(alloc, other)?);
    Ok(Out { label, scalar })
}
