//! Lists in which no name may stand twice.

ghost use Rattle.lk_names.specs.Faults.{Answers};
ghost use Rattle.lk_names.specs.Repeats.{twice_fault, words_fault, columns_fault, keys_fault};
ghost use Rattle.lk_scope.specs.Names.{bind};
ghost use Rattle.std.specs.Prelude.{◌≡◌, OnOk};

use crate::error::NameError;
use lk_ast::{ColumnDecl, SortKey, Word};
use lk_scope::Names;
use std::alloc::Global;

/// One more name, which isn't among those that were met before.
pub fn once(alloc: Global, met: &mut Names, name: &Word) -> Result<(), NameError>
    ensures fault { Answers result (twice_fault met.old name.now) }
    ensures met { OnOk result (met.new ≡ bind name.now met.old) }
{
    if met.insert(alloc, name.text.as_str())? {
        Ok(())
    } else {
        Err(NameError::Twice(name.at))
    }
}

/// Names, each once.
pub fn words(alloc: Global, list: &[Word]) -> Result<(), NameError>
    ensures { Answers result (words_fault list.now) }
{
    let mut met = Names::new(alloc);
    for word in list {
        once(alloc, &mut met, word)?;
    }
    Ok(())
}

/// Columns, each label once.
pub fn columns(alloc: Global, list: &[ColumnDecl]) -> Result<(), NameError>
    ensures { Answers result (columns_fault list.now) }
{
    let mut met = Names::new(alloc);
    for column in list {
        once(alloc, &mut met, &column.label)?;
    }
    Ok(())
}

/// Keys, each label once.
pub fn keys(alloc: Global, list: &[SortKey]) -> Result<(), NameError>
    ensures { Answers result (keys_fault list.now) }
{
    let mut met = Names::new(alloc);
    for key in list {
        once(alloc, &mut met, &key.label)?;
    }
    Ok(())
}
