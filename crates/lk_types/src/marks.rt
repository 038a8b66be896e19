//! Which of the levels stand in some types.

ghost use Rattle.lk_types.specs.Each.{Each};
ghost use Rattle.lk_types.specs.Levels.{parts_of, AreMarked, IsBelow, IsTable};
ghost use Rattle.lk_types.specs.Places.{with_marks};
ghost use Rattle.std.specs.Prelude.{◌≡◌, ◌<◌, IfOk, length, map};

use crate::levels::{Level, LevelField};
use lk_ast::NoMemory;
use std::alloc::Global;

/// Which of the levels stand in the types at these places. All levels are looked at, from the last to the first: each that is marked
/// marks its parts.
pub fn marked(alloc: Global, levels: &[Level], roots: &[u32]) -> Result<Vec<bool>, NoMemory>
    requires { IsTable levels.now roots.now }
    ensures { IfOk result (λ marks. AreMarked levels.now roots.now marks.items) }
{
    let mut marks = vec![in alloc; false; levels.len()]?;
    mark_all(&mut marks, roots);
    for place in (0..levels.len()).rev() {
        if marks[place] {
            mark_parts(&mut marks, &levels[place]);
        }
    }
    Ok(marks)
}

/// Marks the parts of a level.
fn mark_parts(marks: &mut Vec<bool>, level: &Level)
    requires { IsBelow (length marks.old.items) level.now }
    ensures { marks.new.items ≡ with_marks marks.old.items (parts_of level.now) }
{
    match level {
        Level::Int | Level::Bool | Level::Text | Level::Var(_) => {}
        Level::List(part) => marks[*part as usize] = true,
        Level::Fields(row) => mark_fields(marks, row.fields.as_slice()),
        Level::Tags(row) => mark_fields(marks, row.fields.as_slice()),
        Level::Fun(params, _, answer) => {
            marks[*answer as usize] = true;
            mark_all(marks, params.as_slice());
        }
    }
}

fn mark_all(marks: &mut Vec<bool>, places: &[u32])
    requires { Each (λ p. p < length marks.old.items) places.now }
    ensures { marks.new.items ≡ with_marks marks.old.items places.now }
{
    for place in places {
        marks[*place as usize] = true;
    }
}

fn mark_fields(marks: &mut Vec<bool>, fields: &[LevelField])
    requires { Each (λ p. p < length marks.old.items) (map (λ f. f.part) fields.now) }
    ensures { marks.new.items ≡ with_marks marks.old.items (map (λ f. f.part) fields.now) }
{
    for field in fields {
        marks[field.part as usize] = true;
    }
}
