//! Functions with schemes, for those that come later.

ghost use Rattle.lk_ast.specs.Functions.{functions_in};
ghost use Rattle.lk_typing.specs.Programs.{entries};
ghost use Rattle.std.specs.Prelude.{◌≡◌, ◌++◌, IfOk, OnOk};

use lk_ast::{Decl, List, NoMemory, functions_in};
use lk_equations::{Known, Scope};
use lk_types::{Lack, Scheme};
use std::alloc::Global;

fn copy_lacks(alloc: Global, lacks: &[Lack]) -> Result<List<Lack>, NoMemory>
    ensures { IfOk result (λ copies. copies ≡ lacks.now) }
{
    let mut copies = List::new(alloc);
    for lack in lacks {
        copies.push(Lack {
            var: lack.var,
            label: lack.label.copy(alloc)?,
        })?;
    }
    Ok(copies)
}

fn copy_scheme(alloc: Global, scheme: &Scheme) -> Result<Scheme, NoMemory>
    ensures { IfOk result (λ copy. copy ≡ scheme.now) }
{
    Ok(Scheme {
        body: scheme.body.share()?,
        lacks: copy_lacks(alloc, scheme.lacks.as_slice())?,
    })
}

/// The functions of a declaration with their schemes, before those that are there.
pub fn declare<'p>(
    alloc: Global,
    earlier: &mut Scope<'p, Known>,
    decl: &'p Decl,
    schemes: &[Scheme],
) -> Result<(), NoMemory>
    ensures { OnOk result (earlier.new ≡ entries (functions_in decl.now) schemes.now ++ earlier.old) }
{
    let functions = functions_in(decl);
    let mut count = functions.len().min(schemes.len());
    'last_first: while count > 0 {
        count -= 1;
        let scheme = copy_scheme(alloc, &schemes[count])?;
        let known = Known::of(alloc, scheme)?;
        earlier.push(functions[count].name.text.as_str(), known)?;
    }
    Ok(())
}
