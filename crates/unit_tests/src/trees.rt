//! Copies of trees, which no command makes of a whole program.

use lk_ast::{
    Boxed, Decl, Expr, FunDef, List, Loc, NoMemory, Node, Program, Span, Text, Word, copy_program,
    first_statement,
};
use std::alloc::Global;
use std::test::Fail;

fn expr(alloc: Global, node: Node) -> Result<Expr, NoMemory> {
    let span = Span { start: 0, end: 0 };
    let node = Boxed::new(alloc, node)?;
    Ok(Expr { span, node })
}

fn word(alloc: Global) -> Word {
    let at = Span { start: 0, end: 0 };
    let text = Text::new(alloc);
    Word { at, text }
}

/// Half a million times `1;` and half a million times `var = 1;`, and then 0.
fn long_block(alloc: Global) -> Result<Expr, NoMemory> {
    let mut block = expr(alloc, Node::Int(0))?;
    for _i in 0..500_000 {
        let statement = expr(alloc, Node::Int(1))?;
        block = expr(alloc, Node::Seq(statement, block))?;
        let bound = expr(alloc, Node::Int(1))?;
        block = expr(alloc, Node::Var(word(alloc), bound, block))?;
    }
    Ok(block)
}

/// A program of one function.
fn program(alloc: Global, body: Expr) -> Result<Program, NoMemory> {
    let function = FunDef {
        name: word(alloc),
        sig: None,
        params: List::new(alloc),
        place: Loc::Server,
        body,
    };
    let decls = List::from_vec(vec![in alloc; Decl::Fun(function)]?);
    Ok(Program { decls })
}

fn body(program: &Program) -> Option<&Expr> {
    match program.decls.as_slice() {
        [Decl::Fun(function)] => Some(&function.body),
        _ => None,
    }
}

// No step goes deeper for each statement: not the copy, and not what lets go of both.
#[test]
fn a_long_block_is_copied(rt: HostRuntime) -> Result<(), Fail> {
    let alloc = rt.alloc();
    let program = program(alloc, long_block(alloc)?)?;
    let copy = copy_program(alloc, &program)?;
    let mut rest = body(&copy);
    for _i in 0..1_000_000 {
        rest = rest.and_then(|e| first_statement(e).map(|(_name, _statement, next)| next));
    }
    assert!(rt; matches!(rest.map(|e| e.node.get()), Some(Node::Int(0))));
    Ok(())
}
