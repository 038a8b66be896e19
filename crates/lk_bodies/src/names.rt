//! Names that statements bind, on the way down a block.

ghost use Rattle.lk_bodies.specs.Walk.{with_some};
ghost use Rattle.std.specs.Option.{option_copied};
ghost use Rattle.std.specs.Prelude.{◌≡◌, drop, IfOk, OnOk};

use lk_ast::{NoMemory, Word};
use lk_equations::Scope;

/// One more name for that, or none. The answer is how many names have to be taken away, where before it was `count`.
pub fn push_some<'p, T: Drop>(
    names: &mut Scope<'p, T>,
    name: Option<&'p Word>,
    value: T,
    count: usize,
) -> Result<usize, NoMemory>
    ensures names { OnOk result (names.new ≡ with_some (option_copied name.entry) value names.old) }
    ensures count { IfOk result (λ more. drop more names.new ≡ drop count names.old) }
{
    match name {
        None => Ok(count),
        Some(name) => {
            let more = count.checked_add(1).ok_or(NoMemory)?;
            names.push(name.text.as_str(), value)?;
            Ok(more)
        }
    }
}

/// Takes names away, those that came last.
pub fn drop_names<T: Drop>(names: &mut Scope<T>, count: usize)
    ensures { names.new ≡ drop count names.old }
{
    for _i in 0..count {
        names.pop();
    }
}
