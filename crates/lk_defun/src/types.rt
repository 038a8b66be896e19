//! Types by their numbers.

ghost use Rattle.lk_code.specs.Tables.{node_type, type_at};
ghost use Rattle.lk_code.specs.Told.{kept_types, node_types, types_at};
ghost use Rattle.std.specs.Option.{option_map};
ghost use Rattle.std.specs.Prelude.{◌≡◌, ◌++◌, IfOk, OnOk, Some};

use lk_ast::{List, NoMemory};
use lk_ground_types::share_type;
use lk_ir::{Forms, Kept};
use lk_types::Ground;
use std::alloc::Global;

/// The type with this number. `NoMemory` also where there is none, which isn't so in a program.
pub fn type_at(forms: &Forms, ty: u32) -> Result<Ground, NoMemory>
    ensures { IfOk result (λ t. type_at forms.now ty ≡ Some t) }
{
    match forms.types.get(ty as usize) {
        Some(t) => share_type(t),
        None => Err(NoMemory),
    }
}

/// The type of a node.
pub fn node_type(forms: &Forms, node: u32) -> Result<Ground, NoMemory>
    ensures { IfOk result (λ t. node_type forms.now node ≡ Some t) }
{
    match forms.nodes.get(node as usize) {
        Some(form) => type_at(forms, form.ty),
        None => Err(NoMemory),
    }
}

/// Adds the types with these numbers.
fn push_types(types: &mut List<Ground>, forms: &Forms, numbers: &[u32]) -> Result<(), NoMemory>
    ensures { OnOk result (option_map (λ more. types.old ++ more) (types_at forms.now numbers.now) ≡ Some types.new) }
{
    for number in numbers {
        types.push(type_at(forms, *number)?)?;
    }
    Ok(())
}

/// Adds the types of what is kept.
pub fn push_kept(types: &mut List<Ground>, forms: &Forms, kept: &[Kept]) -> Result<(), NoMemory>
    ensures { OnOk result (option_map (λ more. types.old ++ more) (kept_types forms.now kept.now) ≡ Some types.new) }
{
    for k in kept {
        types.push(type_at(forms, k.ty)?)?;
    }
    Ok(())
}

/// Adds the types of these nodes.
pub fn push_nodes(types: &mut List<Ground>, forms: &Forms, nodes: &[u32]) -> Result<(), NoMemory>
    ensures { OnOk result (option_map (λ more. types.old ++ more) (node_types forms.now nodes.now) ≡ Some types.new) }
{
    for node in nodes {
        types.push(node_type(forms, *node)?)?;
    }
    Ok(())
}

/// The types with these numbers.
#[tactic(auto, using(crate::proofs::Added::all_added))]
pub fn types_at(alloc: Global, forms: &Forms, numbers: &[u32]) -> Result<List<Ground>, NoMemory>
    ensures { IfOk result (λ types. types_at forms.now numbers.now ≡ Some types) }
{
    let mut types = List::new(alloc);
    push_types(&mut types, forms, numbers)?;
    Ok(types)
}

/// The types of what is kept.
#[tactic(auto, using(crate::proofs::Added::all_added))]
pub fn kept_types(alloc: Global, forms: &Forms, kept: &[Kept]) -> Result<List<Ground>, NoMemory>
    ensures { IfOk result (λ types. kept_types forms.now kept.now ≡ Some types) }
{
    let mut types = List::new(alloc);
    push_kept(&mut types, forms, kept)?;
    Ok(types)
}

/// The types of these nodes.
#[tactic(auto, using(crate::proofs::Added::all_added))]
pub fn node_types(alloc: Global, forms: &Forms, nodes: &[u32]) -> Result<List<Ground>, NoMemory>
    ensures { IfOk result (λ types. node_types forms.now nodes.now ≡ Some types) }
{
    let mut types = List::new(alloc);
    push_nodes(&mut types, forms, nodes)?;
    Ok(types)
}
