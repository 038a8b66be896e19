//! The local names of a program.

ghost use Rattle.lk_index.specs.Free.{byte_order, texts};
ghost use Rattle.lk_ast.specs.Layers.{layer};
ghost use Rattle.lk_lower.specs.Children.{inside, nodes_of};
ghost use Rattle.lk_lower.specs.Walked.{shown};
ghost use Rattle.std.specs.BTreeSet.{IsFromIterResult};
ghost use Rattle.std.specs.Cmp.Lexicographic.{slice_cmp};
ghost use Rattle.std.specs.List.Sorted.{IsStrictlySortedBy};
ghost use Rattle.std.specs.Ordering.{nat_cmp};
ghost use Rattle.std.specs.Prelude.{◌≡◌, ◌≤◌, ◌+◌, IfOk, OnOk};

use crate::children::gather_inside;
use lk_ast::{Case, Expr, LastCase, List, NoMemory, Node, Text, Word};
use lk_ground::GroundFun;
use std::alloc::Global;
use std::collections::BTreeSet;

/// The names that instances bind outside of queries, updates and deletions, each once and in byte order.
pub fn local_names(alloc: Global, funs: &[GroundFun]) -> Result<List<Text>, NoMemory>
    ensures { IfOk result (λ names. IsStrictlySortedBy (slice_cmp nat_cmp) names) }
{
    let mut found = List::new(alloc);
    for fun in funs {
        words(fun.function.params.as_slice(), &mut found)?;
        bound_in(alloc, &fun.function.body, &mut found)?;
    }
    in_order(alloc, found.as_slice())
}

/// These names in byte order, each once.
fn in_order(alloc: Global, names: &[&str]) -> Result<List<Text>, NoMemory>
    ensures { IfOk result (λ sorted. IsStrictlySortedBy (slice_cmp nat_cmp) sorted) }
{
    let set = set_of(alloc, names)?;
    let items = items_of(alloc, &set)?;
    Ok(copies(alloc, items.as_slice())?)
}

/// The set of these names.
fn set_of<'p>(alloc: Global, names: &[&'p str]) -> Result<BTreeSet<&'p str>, NoMemory>
    ensures { IfOk result (IsFromIterResult byte_order names.now) }
{
    Ok(names.iter().copied().collect(alloc)?)
}

/// The names of a set in its order.
fn items_of<'p>(alloc: Global, names: &BTreeSet<&'p str>) -> Result<List<&'p str>, NoMemory>
    ensures { IfOk result (λ items. items ≡ names.now.keys) }
{
    let items: Vec<&'p str> = names.iter().copied().collect(alloc)?;
    Ok(List::from_vec(items))
}

/// The texts of names.
fn copies(alloc: Global, names: &[&str]) -> Result<List<Text>, NoMemory>
    ensures { IfOk result (λ copies. copies ≡ texts names.now) }
{
    let mut copies = List::new(alloc);
    for name in names {
        copies.push(Text::from_str(alloc, name)?)?;
    }
    Ok(copies)
}

/// The names that are bound in an expression. What stands in one is put in its place, so that no depth takes stack.
fn bound_in<'p>(alloc: Global, e: &'p Expr, found: &mut List<&'p str>) -> Result<(), NoMemory> {
    let mut waiting = List::new(alloc);
    waiting.push(e)?;
    while let Some(e) = waiting.pop() {
        bound_by(e.node.get(), found)?;
        enter(e, &mut waiting)?;
    }
    Ok(())
}

/// What stands in an expression and is lowered.
fn enter<'p>(e: &'p Expr, waiting: &mut List<&'p Expr>) -> Result<(), NoMemory>
    ensures { OnOk result (nodes_of (shown waiting.new) ≤ nodes_of (shown waiting.old) + nodes_of (inside (layer e.now))) }
{
    match e.node.get() {
        Node::Query(_, _) | Node::Update(_) | Node::Delete(_) => Ok(()),
        _ => enter_all(e, waiting),
    }
}

/// All that stands in an expression.
fn enter_all<'p>(e: &'p Expr, waiting: &mut List<&'p Expr>) -> Result<(), NoMemory>
    ensures { OnOk result (nodes_of (shown waiting.new) ≤ nodes_of (shown waiting.old) + nodes_of (inside (layer e.now))) }
{
    gather_inside(e.node.get(), waiting)?;
    Ok(())
}

/// The names that a node binds.
fn bound_by<'p>(node: &'p Node, found: &mut List<&'p str>) -> Result<(), NoMemory> {
    match node {
        Node::Lambda(lambda) => words(lambda.params.as_slice(), found),
        Node::Var(name, _, _) | Node::ForList(name, _, _) | Node::ForTable(name, _, _) => {
            found.push(name.text.as_str())
        }
        Node::Switch(_, cases, last) => {
            case_names(cases.as_slice(), found)?;
            last_name(last, found)
        }
        _ => Ok(()),
    }
}

fn words<'p>(list: &'p [Word], found: &mut List<&'p str>) -> Result<(), NoMemory> {
    for word in list {
        found.push(word.text.as_str())?;
    }
    Ok(())
}

fn case_names<'p>(list: &'p [Case], found: &mut List<&'p str>) -> Result<(), NoMemory> {
    for case in list {
        if let Some(name) = &case.name {
            found.push(name.text.as_str())?;
        }
    }
    Ok(())
}

fn last_name<'p>(last: &'p Option<LastCase>, found: &mut List<&'p str>) -> Result<(), NoMemory> {
    match last {
        Some(last) => found.push(last.name.text.as_str()),
        None => Ok(()),
    }
}
