//! Inference for whole programs.

ghost use Rattle.lk_infer.specs.Generalised.{HasOwnLacks, IsNarrow};
ghost use Rattle.lk_infer.specs.Inferred.{HasTypes};
ghost use Rattle.lk_infer.specs.LacksInOrder.{IsSchemeInOrder};
ghost use Rattle.lk_infer.specs.Programs.{EndsIllTyped, EndsTooLarge};
ghost use Rattle.lk_infer.specs.Refusals.{some_large};
ghost use Rattle.lk_infer.specs.declared.error.InferError.TheVariants as errors;
ghost use Rattle.lk_ast.specs.Functions.{functions_in};
ghost use Rattle.lk_ast.specs.declared.place.Span.{Span as TheSpan};
ghost use Rattle.lk_types.specs.Each.{Each};
ghost use Rattle.lk_typing.specs.EffectRows.{IsEvenScheme};
ghost use Rattle.lk_typing.specs.Programs.{ArePrincipal, IsWellTyped, entries};
ghost use Rattle.std.specs.Prelude.{◌≡◌, ◌++◌, ◌||◌, [], false, Err, IfOk, OnOk};

use crate::declare::declare;
use crate::error::InferError;
use crate::group::{Group, infer_group};
use crate::typed::Typed;
use lk_ast::{Decl, List, NoMemory};
use lk_equations::{Known, Scope, Tables};
use lk_names::Scoped;
use lk_types::{Scheme, Types};
use lk_typing::typing_laws;
use std::alloc::Global;

/// Adds schemes to others.
fn append_schemes(schemes: &mut List<Scheme>, others: List<Scheme>) -> Result<(), NoMemory>
    ensures { OnOk result (schemes.new ≡ schemes.old ++ others) }
{
    for scheme in others.into_vec() {
        schemes.push(scheme)?;
    }
    Ok(())
}

/// What is inferred of the declarations so far.
pub struct Inference<'p> {
    /// The functions with their schemes, as later ones see them.
    pub earlier: Scope<'p, Known>,
    pub schemes: List<Scheme>,
    pub types: Types,
    /// Whether a type of a node is too large.
    pub large: bool,
}

impl<'p> Inference<'p> {
    /// Nothing is inferred yet.
    pub fn new(alloc: Global) -> Inference<'p>
        ensures earlier { result.earlier ≡ [] }
        ensures schemes { result.schemes ≡ [] }
        ensures types { result.types ≡ [] }
        ensures large { result.large ≡ false }
    {
        Inference {
            earlier: Scope::new(alloc),
            schemes: List::new(alloc),
            types: Types::new(alloc),
            large: false,
        }
    }

    /// The schemes and the types.
    fn into_typed(self) -> Typed
        ensures schemes { result.schemes ≡ self.entry.schemes }
        ensures types { result.types ≡ self.entry.types }
    {
        let Inference {
            earlier: _earlier,
            schemes,
            types,
            large: _large,
        } = self;
        Typed { schemes, types }
    }
}

impl<'p> Drop for Inference<'p> {
    fn drop(self) {
        let Inference {
            earlier: _earlier,
            schemes: _schemes,
            types: _types,
            large: _large,
        } = self;
    }
}

/// Adds what is inferred of one declaration more.
pub fn add_group<'p>(
    alloc: Global,
    so_far: &mut Inference<'p>,
    decl: &'p Decl,
    group: Group,
) -> Result<(), NoMemory>
    ensures earlier { OnOk result (so_far.new.earlier ≡ entries (functions_in decl.now) group.schemes ++ so_far.old.earlier) }
    ensures schemes { OnOk result (so_far.new.schemes ≡ so_far.old.schemes ++ group.schemes) }
    ensures types { OnOk result (so_far.new.types ≡ so_far.old.types ++ group.types) }
    ensures large { OnOk result (so_far.new.large ≡ (so_far.old.large || some_large group.types)) }
{
    let large = group.types.any_large(alloc)?;
    so_far.large |= large;
    declare(alloc, &mut so_far.earlier, decl, group.schemes.as_slice())?;
    append_schemes(&mut so_far.schemes, group.schemes)?;
    so_far.types.append(group.types)
}

/// The principal schemes of a program's functions and the principal types of its nodes, or the first place in the walk at
/// which what is said can't hold or a type is too large. The schemes are written in order, as they are printed.
pub fn infer(alloc: Global, program: &Scoped) -> Result<Typed, InferError>
    ensures principal { IfOk result (λ typed. ArePrincipal program.now typed.schemes) }
    ensures types { IfOk result (λ typed. HasTypes program.now typed.schemes typed.types) }
    ensures in_order { IfOk result (λ typed. Each IsSchemeInOrder typed.schemes) }
    ensures even { IfOk result (λ typed. Each IsEvenScheme typed.schemes) }
    ensures own_lacks { IfOk result (λ typed. Each HasOwnLacks typed.schemes) }
    ensures narrow { IfOk result (λ typed. Each IsNarrow typed.schemes) }
    ensures ill_typed { (at : TheSpan) → result ≡ Err (errors.IllTyped at) → EndsIllTyped program.now at }
    ensures not_well_typed { (at : TheSpan) → result ≡ Err (errors.IllTyped at) → IsWellTyped program.now → ⊥ }
    ensures too_large { (at : TheSpan) → result ≡ Err (errors.TypeTooLarge at) → EndsTooLarge program.now at }
{
    typing_laws();
    let program = program.program();
    let tables = Tables::of(alloc, program)?;
    let mut so_far = Inference::new(alloc);
    for decl in program.decls.as_slice() {
        let group = match infer_group(alloc, &so_far.earlier, &tables, decl, so_far.large) {
            Ok(group) => group,
            Err(error) => return Err(error),
        };
        add_group(alloc, &mut so_far, decl, group)?;
    }
    Ok(so_far.into_typed())
}
