//! How the equations of a case come out, and what types become under their most general solution.

use crate::reader::{is_type, read_equation};
use case_files::parted;
use lk_ast::{Boxed, List, NoMemory};
use lk_types::{
    Binding, Effects, Equation, Image, RowTail, Side, Subst, Ty, TyRow, Types, print_type,
};
use lk_unify::{Constraint, Sizing, UnifyError, first_unsolvable, solve, unify};
use std::alloc::Global;
use std::mem;

// ---- the equations of a case

/// When the size of an equation matters, by the word before it.
pub fn sizing_of(word: &str) -> Option<Sizing> {
    match word {
        "equation" => Some(Sizing::Always),
        "late" => Some(Sizing::Late),
        "never" => Some(Sizing::Never),
        _ => None,
    }
}

/// Whether the size of each equation matters always, so that `unify` can be asked.
fn is_plain(case: &str) -> bool {
    for line in case.split('\n') {
        let (word, _rest) = parted(line);
        if matches!(sizing_of(word), Some(Sizing::Late | Sizing::Never)) {
            return false;
        }
    }
    true
}

/// Adds the equation that a text is, if it is one.
fn push_constraint(
    alloc: Global,
    constraints: &mut List<Constraint>,
    text: &str,
    sizing: Sizing,
) -> Result<(), NoMemory> {
    match read_equation(alloc, text) {
        Some(equation) => constraints.push(Constraint { equation, sizing }),
        None => Ok(()),
    }
}

/// The equations of a case, each with its sizing.
fn constraints_of(alloc: Global, case: &str) -> Result<List<Constraint>, NoMemory> {
    let mut constraints = List::new(alloc);
    for line in case.split('\n') {
        let (word, rest) = parted(line);
        if let Some(sizing) = sizing_of(word) {
            push_constraint(alloc, &mut constraints, rest, sizing)?;
        }
    }
    Ok(constraints)
}

/// The equations of a case.
fn equations_of(alloc: Global, case: &str) -> Result<List<Equation>, NoMemory> {
    let mut equations = List::new(alloc);
    for constraint in constraints_of(alloc, case)?.into_vec() {
        equations.push(constraint.equation)?;
    }
    Ok(equations)
}

// ---- how they come out

/// `solvable`, or why they aren't.
fn fault_text(alloc: Global, fault: Option<UnifyError>) -> Result<String, NoMemory> {
    match fault {
        None => Ok(format!(in alloc; "solvable")?),
        Some(UnifyError::NoSolution(k)) => Ok(format!(in alloc; "unsolvable {k}")?),
        Some(UnifyError::TypeTooLarge(k)) => Ok(format!(in alloc; "too large {k}")?),
        Some(UnifyError::NoMemory) => Err(NoMemory),
    }
}

/// Whether this is the first unsolvable equation where unification has this fault.
fn is_first(fault: Option<UnifyError>, first: Option<usize>) -> bool {
    match fault {
        None => first.is_none(),
        Some(UnifyError::NoSolution(k)) => first.is_some_and(|number| number as u64 == k),
        Some(_) => true,
    }
}

/// How the equations come out, by `solve`, and by `unify` where that says something else.
pub fn verdict(alloc: Global, case: &str) -> Result<String, NoMemory> {
    let solved = solve(alloc, constraints_of(alloc, case)?).err();
    if is_plain(case) {
        return both_verdicts(alloc, case, solved);
    }
    fault_text(alloc, solved)
}

/// How the equations come out, by `solve` in this way.
fn both_verdicts(
    alloc: Global,
    case: &str,
    solved: Option<UnifyError>,
) -> Result<String, NoMemory> {
    let equations = equations_of(alloc, case)?;
    let unified = unify(alloc, equations.as_slice()).err();
    let first = first_unsolvable(alloc, equations.as_slice())?;
    if solved == unified && is_first(unified, first) {
        return fault_text(alloc, solved);
    }
    Ok(format!(in alloc; "{solved:?} by solve, {unified:?} by unify, {first:?}")?)
}

// ---- what types become

/// What the sides of each equation become under the most general solution of all, or why there is none.
pub fn sides(alloc: Global, case: &str) -> Result<String, NoMemory> {
    match solve(alloc, constraints_of(alloc, case)?) {
        Ok(types) => types_text(alloc, &types),
        Err(fault) => fault_text(alloc, Some(fault)),
    }
}

/// `T; T`.
fn types_text(alloc: Global, types: &Types) -> Result<String, NoMemory> {
    let mut text = String::new(alloc);
    for number in 0..types.len() {
        if !text.is_empty() {
            text.push_str("; ")?;
        }
        let ty = types.tree(alloc, number)?;
        text.push_str(type_text(alloc, &ty)?.as_str())?;
    }
    Ok(text)
}

/// What a type becomes under the most general solution of constraints, or why they have none.
fn under_constraints(
    alloc: Global,
    constraints: List<Constraint>,
    shown: &str,
) -> Result<String, NoMemory> {
    let mut constraints = constraints;
    let itself = format!(in alloc; "{shown} = {shown}")?;
    push_constraint(alloc, &mut constraints, itself.as_str(), Sizing::Never)?;
    match solve(alloc, constraints) {
        Ok(types) => last_text(alloc, &types),
        Err(fault) => fault_text(alloc, Some(fault)),
    }
}

/// A type as text.
pub fn type_text(alloc: Global, ty: &Ty) -> Result<String, NoMemory> {
    let text = print_type(alloc, ty)?;
    Ok(String::from_str(alloc, text.as_str())?)
}

/// The last of these types.
fn last_text(alloc: Global, types: &Types) -> Result<String, NoMemory> {
    match types.len().checked_sub(1) {
        Some(last) => type_text(alloc, &types.tree(alloc, last)?),
        None => Ok(String::new(alloc)),
    }
}

/// What a type becomes under what `unify` puts for variables, or why it has nothing for them.
fn under_unified(alloc: Global, case: &str, shown: &str) -> Result<String, NoMemory> {
    let equations = equations_of(alloc, case)?;
    match unify(alloc, equations.as_slice()) {
        Ok(subst) => under_constraints(alloc, bindings(alloc, subst)?, shown),
        Err(fault) => fault_text(alloc, Some(fault)),
    }
}

/// The equations of variables and what is put for them.
fn bindings(alloc: Global, subst: Subst) -> Result<List<Constraint>, NoMemory> {
    let mut constraints = List::new(alloc);
    for mut binding in subst.binds.into_vec() {
        let sizing = Sizing::Never;
        let equation = binding_equation(alloc, &mut binding)?;
        constraints.push(Constraint { equation, sizing })?;
    }
    Ok(constraints)
}

/// The equation of a variable and what is put for it, which is taken out of its place.
fn binding_equation(alloc: Global, binding: &mut Binding) -> Result<Equation, NoMemory> {
    let var = binding.var;
    match &mut binding.is {
        Image::Plain(ty) => Ok(plain_equation(var, ty)),
        Image::Row(row) => Ok(row_equation(alloc, var, row)),
        Image::Effects(effects) => effects_equation(alloc, var, effects),
    }
}

/// `t1 = T`.
fn plain_equation(var: u32, ty: &mut Ty) -> Equation {
    Equation {
        left: Side::of(Ty::Var(var)),
        right: Side::of(mem::replace(ty, Ty::Int)),
    }
}

/// The row that is its tail.
fn tail_row(alloc: Global, tail: RowTail) -> TyRow {
    let fields = List::new(alloc);
    TyRow { fields, tail }
}

/// `(|t1) = (row)`.
fn row_equation(alloc: Global, var: u32, row: &mut TyRow) -> Equation {
    let right = mem::replace(row, tail_row(alloc, RowTail::Closed));
    Equation {
        left: Side::of(Ty::Fields(tail_row(alloc, RowTail::Var(var)))),
        right: Side::of(Ty::Fields(right)),
    }
}

/// The effects that are their tail.
fn tail_effects(alloc: Global, tail: RowTail) -> Effects {
    let labels = List::new(alloc);
    Effects { labels, tail }
}

/// `() {|t1}-> Int = () {effects}-> Int`.
fn effects_equation(alloc: Global, var: u32, effects: &mut Effects) -> Result<Equation, NoMemory> {
    let left = doing(alloc, tail_effects(alloc, RowTail::Var(var)))?;
    let effects = mem::replace(effects, tail_effects(alloc, RowTail::Closed));
    let right = doing(alloc, effects)?;
    Ok(Equation {
        left: Side::of(left),
        right: Side::of(right),
    })
}

fn doing(alloc: Global, effects: Effects) -> Result<Ty, NoMemory> {
    let answer = Boxed::new(alloc, Ty::Int)?;
    Ok(Ty::Fun(List::new(alloc), effects, answer))
}

/// `T = T`: a type and what it becomes under the most general solution of the equations of a case, by `solve`, and by `unify`
/// where that says something else. None where the text is no type.
pub fn solution(alloc: Global, case: &str, shown: &str) -> Result<Option<String>, NoMemory> {
    if !is_type(alloc, shown) {
        return Ok(None);
    }
    let solved = under_constraints(alloc, constraints_of(alloc, case)?, shown)?;
    if is_plain(case) {
        return both_solutions(alloc, case, shown, solved);
    }
    Ok(Some(solved))
}

/// What a type becomes, by `solve` this.
fn both_solutions(
    alloc: Global,
    case: &str,
    shown: &str,
    solved: String,
) -> Result<Option<String>, NoMemory> {
    let unified = under_unified(alloc, case, shown)?;
    if solved.as_str() == unified.as_str() {
        return Ok(Some(solved));
    }
    Ok(Some(format!(in alloc; "{solved} by solve, {unified} by unify")?))
}
