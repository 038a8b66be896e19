//! Types of signatures, with a variable for the effects of each arrow.

ghost use Rattle.std.specs.Prelude.{◌≡◌, IfOk, map};
ghost use Rattle.lk_typing.specs.Signatures.{sign_all as the_sign_all, sign_fields as the_sign_fields, signing as the_signing};
ghost use Rattle.lk_typing.specs.Unknowns.{field};
ghost use Rattle.lk_equations.specs.Made.{as_signed, signing_fields};

use crate::renamed::moved;
use crate::unknowns::{any_effects, function_of, list_of, record_of, variant_of};
use lk_ast::{List, NoMemory, SigField, SigType};
use lk_types::{RowTail, Ty, TyField};
use std::alloc::Global;

/// The type of a signature, and the next number for a variable.
#[derive(Drop)]
pub struct Signed {
    pub ty: Ty,
    pub next: u32,
}

/// The types of signatures, and the next number for a variable.
#[derive(Drop)]
pub struct SignedAll {
    pub types: List<Ty>,
    pub next: u32,
}

/// Fields with the types of their signatures, and the next number for a variable.
#[derive(Drop)]
pub struct SignedFields {
    pub fields: List<TyField>,
    pub next: u32,
}

/// The type of a signature, its variables numbered from `next` on.
#[cycle(signing)]
#[tactic(auto, using(crate::proofs::Unfold::signing_int, crate::proofs::Unfold::signing_bool, crate::proofs::Unfold::signing_text, crate::proofs::Unfold::signing_list, crate::proofs::Unfold::signing_record, crate::proofs::Unfold::signing_variant, crate::proofs::Unfold::signing_function))]
pub fn signing(alloc: Global, sig: &SigType, next: u32) -> Result<Signed, NoMemory>
    ensures { IfOk result (λ made. as_signed made ≡ the_signing sig.now next) }
{
    match sig {
        SigType::Int => Ok(Signed { ty: Ty::Int, next }),
        SigType::Bool => Ok(Signed { ty: Ty::Bool, next }),
        SigType::Text => Ok(Signed { ty: Ty::Text, next }),
        SigType::List(item) => {
            let Signed { ty, next } = signing(alloc, item.get(), next)?;
            let ty = list_of(alloc, ty)?;
            Ok(Signed { ty, next })
        }
        SigType::Fields(fields) => {
            let SignedFields { fields, next } = sign_fields(alloc, fields.as_slice(), next)?;
            let ty = record_of(fields, RowTail::Closed);
            Ok(Signed { ty, next })
        }
        SigType::Tags(tags) => {
            let SignedFields { fields, next } = sign_fields(alloc, tags.as_slice(), next)?;
            let ty = variant_of(fields, RowTail::Closed);
            Ok(Signed { ty, next })
        }
        SigType::Fun(params, answer) => {
            let effects = any_effects(alloc, next);
            let SignedAll { types, next } = sign_all(alloc, params.as_slice(), moved(next, 1)?)?;
            let Signed { ty, next } = signing(alloc, answer.get(), next)?;
            let ty = function_of(alloc, types, effects, ty)?;
            Ok(Signed { ty, next })
        }
    }
}

#[cycle(signing)]
fn sign_all(alloc: Global, sigs: &[SigType], next: u32) -> Result<SignedAll, NoMemory>
    ensures types { IfOk result (λ made. made.types ≡ (the_sign_all (map the_signing sigs.now) next).types) }
    ensures next { IfOk result (λ made. made.next ≡ (the_sign_all (map the_signing sigs.now) next).next) }
{
    let mut types = List::new(alloc);
    let mut next = next;
    for sig in sigs {
        let made = signing(alloc, sig, next)?;
        types.push(made.ty)?;
        next = made.next;
    }
    Ok(SignedAll { types, next })
}

#[cycle(signing)]
fn sign_fields(alloc: Global, sigs: &[SigField], next: u32) -> Result<SignedFields, NoMemory>
    ensures fields { IfOk result (λ made. made.fields ≡ map field (the_sign_fields (signing_fields sigs.now) next).fields) }
    ensures next { IfOk result (λ made. made.next ≡ (the_sign_fields (signing_fields sigs.now) next).next) }
{
    let mut fields = List::new(alloc);
    let mut next = next;
    for sig in sigs {
        let label = sig.label.text.copy(alloc)?;
        let made = signing(alloc, &sig.ty, next)?;
        fields.push(TyField { label, ty: made.ty })?;
        next = made.next;
    }
    Ok(SignedFields { fields, next })
}
