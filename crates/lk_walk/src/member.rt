//! The functions of a group, and what is said of each before its body.

ghost use Rattle.lk_types.specs.declared.ty.Ty.TheVariants as ty;
ghost use Rattle.lk_typing.specs.Groups.{after_unknowns, is_mutual as the_mutual, is_recursive as the_recursive, main_told as the_main_told, signature_told as the_signature_told, type_of, unknown};
ghost use Rattle.lk_typing.specs.Unknowns.{same as the_same};
ghost use Rattle.lk_equations.specs.Forms.{as_told};
ghost use Rattle.lk_walk.specs.Members.{all_shown, first_type, named_type, numbered_from, told_before as the_told_before};
ghost use Rattle.std.specs.Option.{option_copied};
ghost use Rattle.std.specs.Prelude.{◌≡◌, ◌+◌, length, map, IfOk};

use crate::uses::uses;
use crate::walker::new_types;
use lk_ast::{Decl, FunDef, List, NoMemory, Sig, is_main};
use lk_equations::{
    Scope, Told, any_effects, function_of, has_if, is_marked, joined, moved, nothing, one, same,
    signing,
};
use lk_types::{Effect, Equation, Ty};
use std::alloc::Global;

/// A function of a group, with the first number for the variables of its type.
#[derive(Drop)]
pub struct Member<'p> {
    pub function: &'p FunDef,
    pub first: u32,
}

/// The functions of a group, and the next number for a variable.
#[derive(Drop)]
pub struct Members<'p> {
    pub all: List<Member<'p>>,
    pub next: u32,
}

/// Whether functions of a declaration may call one another.
pub fn is_mutual(decl: &Decl) -> bool
    ensures { result ≡ the_mutual decl.now }
{
    match decl {
        Decl::Table(_) | Decl::Fun(_) => false,
        Decl::Mutual(_) => true,
    }
}

/// The functions of a group, the variables of their types numbered from 0.
pub fn members_of<'p>(alloc: Global, functions: &'p [FunDef]) -> Result<Members<'p>, NoMemory>
    ensures all { IfOk result (λ members. all_shown members.all ≡ numbered_from functions.now 0) }
    ensures next { IfOk result (λ members. members.next ≡ after_unknowns functions.now 0) }
{
    let mut all = List::new(alloc);
    let mut next = 0;
    for function in functions {
        all.push(Member {
            function,
            first: next,
        })?;
        next = behind(function, next)?;
    }
    Ok(Members { all, next })
}

/// The number behind those of a function's type.
fn behind(f: &FunDef, first: u32) -> Result<u32, NoMemory>
    ensures { IfOk result (λ next. next ≡ length f.now.params + (2 + first)) }
{
    let count = u32::try_from(f.params.len()).ok().ok_or(NoMemory)?;
    moved(moved(first, 2)?, count)
}

/// The type of a function, of which nothing is known.
pub fn function_type(alloc: Global, f: &FunDef, first: u32) -> Result<Ty, NoMemory>
    ensures { IfOk result (λ made. made ≡ type_of (unknown f.now first)) }
{
    let params = new_types(alloc, f.params.as_slice(), moved(first, 2)?)?;
    let answer = Ty::Var(moved(first, 1)?);
    function_of(alloc, params, any_effects(alloc, first), answer)
}

/// The types of functions.
pub fn function_types(alloc: Global, members: &[Member]) -> Result<List<Ty>, NoMemory>
    ensures { IfOk result (λ types. types ≡ map first_type (all_shown members.now)) }
{
    let mut types = List::new(alloc);
    for member in members {
        types.push(function_type(alloc, member.function, member.first)?)?;
    }
    Ok(types)
}

/// Functions with their types. Of two with one name the first counts, so that it comes last.
pub fn own_functions<'p>(alloc: Global, members: &[Member<'p>]) -> Result<Scope<'p, Ty>, NoMemory>
    ensures { IfOk result (λ own. own ≡ map named_type (all_shown members.now)) }
{
    let mut own = Scope::new(alloc);
    for member in members.iter().rev() {
        let ty = function_type(alloc, member.function, member.first)?;
        own.push(member.function.name.text.as_str(), ty)?;
    }
    Ok(own)
}

/// Whether a function is taken as one that may call itself.
fn is_recursive(in_mutual: bool, f: &FunDef) -> bool
    ensures { result ≡ the_recursive in_mutual f.now }
{
    in_mutual || uses(&f.body, f.name.text.as_str())
}

/// A signature says what type a function has.
fn signature_told(
    alloc: Global,
    sig: Option<&Sig>,
    f: &FunDef,
    first: u32,
    next: u32,
) -> Result<Told, NoMemory>
    ensures { IfOk result (λ made. as_told made ≡ the_signature_told (option_copied sig.entry) (type_of (unknown f.now first)) next) }
{
    match sig {
        None => Ok(nothing(alloc, next)),
        Some(sig) => {
            let signed = signing(alloc, &sig.ty, next)?;
            let ty = function_type(alloc, f, first)?;
            Ok(Told {
                equations: one(alloc, same(ty, signed.ty))?,
                next: signed.next,
            })
        }
    }
}

/// `main` takes texts.
fn main_told(
    alloc: Global,
    is_main: bool,
    f: &FunDef,
    first: u32,
) -> Result<List<Equation>, NoMemory>
    ensures { IfOk result (λ made. made ≡ the_main_told is_main (unknown f.now first).params) }
{
    if is_main {
        let types = new_types(alloc, f.params.as_slice(), moved(first, 2)?)?;
        all_texts(alloc, types)
    } else {
        Ok(List::new(alloc))
    }
}

/// These types are those of texts.
fn all_texts(alloc: Global, types: List<Ty>) -> Result<List<Equation>, NoMemory>
    ensures { IfOk result (λ made. made ≡ map (λ p. the_same p ty.Text) types) }
{
    let mut equations = List::new(alloc);
    for ty in types.into_vec() {
        equations.push(same(ty, Ty::Text))?;
    }
    Ok(equations)
}

/// What is said of a function before its body.
pub fn told_before(
    alloc: Global,
    in_mutual: bool,
    f: &FunDef,
    first: u32,
    next: u32,
) -> Result<Told, NoMemory>
    ensures { IfOk result (λ made. as_told made ≡ the_told_before in_mutual f.now (unknown f.now first) next) }
{
    let effects = any_effects(alloc, first);
    let signature = signature_told(alloc, f.sig.as_ref(), f, first, next)?;
    let main = main_told(alloc, is_main(f), f, first)?;
    let marked = is_marked(f.place);
    let moves = has_if(alloc, marked, &effects, Effect::Move, signature.next)?;
    let recursive = is_recursive(in_mutual, f);
    let recurs = has_if(alloc, recursive, &effects, Effect::Rec, moves.next)?;
    let marks = joined(moves.equations, recurs.equations)?;
    Ok(Told {
        equations: joined(signature.equations, joined(main, marks)?)?,
        next: recurs.next,
    })
}
