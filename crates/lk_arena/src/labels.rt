//! Rows as lists of fields.

ghost use Rattle.std.specs.Prelude.{◌≡◌, ◌++◌, IfOk, OnOk};
ghost use Rattle.lk_arena.specs.Shapes.{missing, common};

use crate::by_label::Finder;
use crate::node::{Field, Pair};
use lk_ast::{List, NoMemory};
use std::alloc::Global;

/// The same field.
fn copy_field(alloc: Global, field: &Field) -> Result<Field, NoMemory>
    ensures { IfOk result (λ copy. copy ≡ field.now) }
{
    let label = field.label.copy(alloc)?;
    Ok(Field {
        label,
        node: field.node,
    })
}

/// Adds copies of fields.
pub fn append(alloc: Global, fields: &mut List<Field>, others: &[Field]) -> Result<(), NoMemory>
    ensures { OnOk result (fields.new ≡ fields.old ++ others.now) }
{
    for other in others {
        fields.push(copy_field(alloc, other)?)?;
    }
    Ok(())
}

/// The fields of the first whose labels the second lacks.
pub fn lacking(alloc: Global, fields: &[Field], others: &[Field]) -> Result<List<Field>, NoMemory>
    ensures { IfOk result (λ rest. rest ≡ missing fields.now others.now) }
{
    let finder = Finder::new(alloc, others, fields.len())?;
    let mut rest = List::new(alloc);
    for field in fields {
        if finder.find(&field.label).is_none() {
            rest.push(copy_field(alloc, field)?)?;
        }
    }
    Ok(rest)
}

/// Adds the pairs of nodes at the labels that both have.
pub fn push_common(
    alloc: Global,
    queue: &mut List<Pair>,
    fields: &[Field],
    others: &[Field],
) -> Result<(), NoMemory>
    ensures { OnOk result (queue.new ≡ queue.old ++ common fields.now others.now) }
{
    let finder = Finder::new(alloc, others, fields.len())?;
    for field in fields {
        if let Some(right) = finder.find(&field.label) {
            queue.push(Pair {
                left: field.node,
                right,
            })?;
        }
    }
    Ok(())
}
