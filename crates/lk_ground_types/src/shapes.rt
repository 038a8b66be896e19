//! Which ground types have functions in them, and which a query may have.

ghost use Rattle.lk_ground_types.specs.Shapes.{are_flat as fields_flat, are_rows as rows, has_function as function_in};
ghost use Rattle.lk_ground_types.specs.Shapes.{is_base as base, is_flat as flat};
ghost use Rattle.lk_ground_types.specs.Shapes.{is_flat_row as flat_row, is_list as list, is_query_type as query_type};
ghost use Rattle.std.specs.List.{list_all, list_any};
ghost use Rattle.std.specs.Prelude.{◌≡◌};

use lk_types::{Ground, GroundField};

/// Whether it is a function type, or one stands in it.
#[cycle(functions)]
#[tactic(auto, using(crate::proofs::ShapesUnfold::function_int, crate::proofs::ShapesUnfold::function_bool, crate::proofs::ShapesUnfold::function_text, crate::proofs::ShapesUnfold::function_list, crate::proofs::ShapesUnfold::function_fields, crate::proofs::ShapesUnfold::function_tags, crate::proofs::ShapesUnfold::function_fun))]
pub fn has_function(ty: &Ground) -> bool
    ensures { result ≡ function_in ty.now }
{
    match ty {
        Ground::Int => false,
        Ground::Bool => false,
        Ground::Text => false,
        Ground::List(item) => has_function(item.get()),
        Ground::Fields(fields) => in_fields(fields.get().as_slice()),
        Ground::Tags(tags) => in_fields(tags.get().as_slice()),
        Ground::Fun(..) => true,
    }
}

#[cycle(functions)]
fn in_fields(fields: &[GroundField]) -> bool
    ensures { result ≡ list_any (λ f. function_in f.ty) fields.now }
{
    for field in fields {
        if has_function(&field.ty) {
            return true;
        }
    }
    false
}

/// Whether it is `Int`, `Bool` or `String`.
pub fn is_base(ty: &Ground) -> bool
    ensures { result ≡ base ty.now }
{
    match ty {
        Ground::Int => true,
        Ground::Bool => true,
        Ground::Text => true,
        _ => false,
    }
}

/// Whether it is a record of bases, with at least one field.
fn is_flat_row(ty: &Ground) -> bool
    ensures { result ≡ flat_row ty.now }
{
    match ty {
        Ground::Fields(fields) => are_flat(fields.get().as_slice()),
        _ => false,
    }
}

fn are_flat(fields: &[GroundField]) -> bool
    ensures { result ≡ fields_flat fields.now }
{
    match fields {
        [] => false,
        [..] => have_bases(fields),
    }
}

fn have_bases(fields: &[GroundField]) -> bool
    ensures { result ≡ list_all (λ f. base f.ty) fields.now }
{
    fields.iter().all(|field| is_base(&field.ty))
}

/// Whether it is a list of flat records.
fn are_rows(ty: &Ground) -> bool
    ensures { result ≡ rows ty.now }
{
    match ty {
        Ground::List(item) => is_flat_row(item.get()),
        _ => false,
    }
}

/// Whether it is a list.
pub fn is_list(ty: &Ground) -> bool
    ensures { result ≡ list ty.now }
{
    match ty {
        Ground::List(_) => true,
        _ => false,
    }
}

/// Whether a query may capture it: a base, or a flat record.
pub fn is_flat(ty: &Ground) -> bool
    ensures { result ≡ flat ty.now }
{
    is_base(ty) || is_flat_row(ty)
}

/// Whether what stands in a query may have it: a base, a flat record or a list of flat records.
pub fn is_query_type(ty: &Ground) -> bool
    ensures { result ≡ query_type ty.now }
{
    is_flat(ty) || are_rows(ty)
}
