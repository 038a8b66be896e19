//! How deeply what a query gives may nest: the programs that `links` answers meet another limit before.

use lk_ast::{Boxed, Expr, List, NoMemory, Node, PartExpr, Program, Span, Text, Word};
use lk_bag::answer;
use lk_index::Index;
use std::alloc::Global;
use std::test::Fail;

fn expr(alloc: Global, node: Node) -> Result<Expr, NoMemory> {
    let span = Span { start: 0, end: 0 };
    let node = Boxed::new(alloc, node)?;
    Ok(Expr { span, node })
}

/// `[(v = e)]`.
fn one_row(alloc: Global, e: Expr) -> Result<Expr, NoMemory> {
    let at = Span { start: 0, end: 0 };
    let text = Text::from_str(alloc, "v")?;
    let label = Word { at, text };
    let fields = List::from_vec(vec![in alloc; PartExpr { label, expr: e }]?);
    let row = expr(alloc, Node::Record(fields))?;
    expr(alloc, Node::List(List::from_vec(vec![in alloc; row]?)))
}

/// A query of one row, in which 1 is negated so many times. It has three levels more: the list, the record and the number.
fn negations(alloc: Global, count: u64) -> Result<Expr, NoMemory> {
    let mut e = expr(alloc, Node::Int(1))?;
    for _ in 0..count {
        e = expr(alloc, Node::Neg(e))?;
    }
    let rows = one_row(alloc, e)?;
    expr(alloc, Node::Query(List::new(alloc), rows))
}

/// Whether a query of a program without tables is answered.
fn is_answered(alloc: Global, program: &Program, query: &Expr) -> Result<bool, NoMemory> {
    let index = Index::new(alloc, program)?;
    Ok(answer(alloc, &index, &[], query, &[]).is_ok())
}

// One level more than 4,096 ends as want of memory.
#[test]
fn as_deep_as_may_be(rt: HostRuntime) -> Result<(), Fail> {
    let alloc = rt.alloc();
    let program = Program {
        decls: List::new(alloc),
    };
    assert!(rt; is_answered(alloc, &program, &negations(alloc, 4_093)?)?);
    assert!(rt; !is_answered(alloc, &program, &negations(alloc, 4_094)?)?);
    Ok(())
}
