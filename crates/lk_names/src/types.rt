//! The types of signatures.

ghost use Rattle.lk_names.specs.Faults.{Answers, first_among};
ghost use Rattle.lk_names.specs.Repeats.{items_fault};
ghost use Rattle.lk_names.specs.Types.{type_fault, field_item};
ghost use Rattle.lk_scope.specs.Names.{no_names};
ghost use Rattle.std.specs.Prelude.{map};

use crate::error::NameError;
use crate::repeats::once;
use lk_ast::{SigField, SigType};
use lk_scope::Names;
use std::alloc::Global;

/// A type, in which no label and no tag is there twice.
#[cycle(types)]
pub fn sig_type(alloc: Global, ty: &SigType) -> Result<(), NameError>
    ensures { Answers result (type_fault ty.now) }
{
    match ty {
        SigType::Int | SigType::Bool | SigType::Text => Ok(()),
        SigType::List(item) => sig_type(alloc, item.get()),
        SigType::Fields(list) | SigType::Tags(list) => fields(alloc, list.as_slice()),
        SigType::Fun(params, result) => {
            sig_types(alloc, params.as_slice())?;
            sig_type(alloc, result.get())
        }
    }
}

/// Types.
#[cycle(types)]
fn sig_types(alloc: Global, list: &[SigType]) -> Result<(), NameError>
    ensures { Answers result (first_among (map type_fault list.now)) }
{
    for ty in list {
        sig_type(alloc, ty)?;
    }
    Ok(())
}

/// `l : Int, m : [String]`.
#[cycle(types)]
fn fields(alloc: Global, list: &[SigField]) -> Result<(), NameError>
    ensures { Answers result (items_fault no_names (map field_item list.now)) }
{
    let mut met = Names::new(alloc);
    for field in list {
        once(alloc, &mut met, &field.label)?;
        sig_type(alloc, &field.ty)?;
    }
    Ok(())
}
