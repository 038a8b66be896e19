//! Programs as a line of text, and what is asked of the one function of a program.

use crate::expression::{add_expr, put_expr};
use crate::line::Line;
use crate::signature::{add_sig, put_type};
use lk_ast::{BaseKind, Decl, Expr, FunDef, Loc, Node, Program, TableDecl};

/// Puts a program: its declarations.
pub fn put_program(line: &mut Line, program: &Program) {
    for decl in program.decls.as_slice() {
        line.put_comma();
        put_decl(line, decl);
    }
}

fn put_decl(line: &mut Line, decl: &Decl) {
    match decl {
        Decl::Table(table) => put_table(line, table),
        Decl::Fun(fun) => put_fun(line, fun),
        Decl::Mutual(funs) => put_mutual(line, funs.as_slice()),
    }
}

fn put_table(line: &mut Line, table: &TableDecl) {
    line.put("table(");
    line.put_word(&table.name);
    for column in table.columns.as_slice() {
        line.add_word(&column.label);
        line.put(base_label(column.kind));
    }
    line.put(")");
}

fn base_label(kind: BaseKind) -> &'static str {
    match kind {
        BaseKind::Int => " : Int",
        BaseKind::Bool => " : Bool",
        BaseKind::Text => " : Text",
    }
}

fn put_fun(line: &mut Line, fun: &FunDef) {
    line.put(fun_label(fun.place));
    line.put_word(&fun.name);
    add_sig(line, &fun.sig);
    line.add_words(fun.params.as_slice());
    add_expr(line, &fun.body);
    line.put(")");
}

fn fun_label(place: Loc) -> &'static str {
    match place {
        Loc::Any => "fun(",
        Loc::Client => "fun client(",
        Loc::Server => "fun server(",
    }
}

fn put_mutual(line: &mut Line, funs: &[FunDef]) {
    line.put("mutual(");
    for fun in funs {
        line.put_comma();
        put_fun(line, fun);
    }
    line.put(")");
}

/// Puts the body of the one function of a program.
pub fn put_body(line: &mut Line, program: &Program) {
    match program.decls.as_slice() {
        [Decl::Fun(fun)] => put_expr(line, &fun.body),
        _ => line.put("no function alone"),
    }
}

/// Puts the type that is written down of the one function of a program.
pub fn put_function_type(line: &mut Line, program: &Program) {
    if let [Decl::Fun(fun)] = program.decls.as_slice() {
        if let Some(sig) = &fun.sig {
            return put_type(line, &sig.ty);
        }
    }
    line.put("no signature");
}

/// Puts how many statements stand before the last expression in the one function of a program.
pub fn put_statements(line: &mut Line, program: &Program) {
    match program.decls.as_slice() {
        [Decl::Fun(fun)] => line.put_count(statements(&fun.body)),
        _ => line.put("no function alone"),
    }
}

/// How many statements stand before the last expression of a block, which a text has room for.
fn statements(body: &Expr) -> u64 {
    let mut rest = body;
    for count in 0..1_048_576u64 {
        match rest.node.get() {
            Node::Seq(_, next) | Node::Var(_, _, next) => rest = next,
            _ => return count,
        }
    }
    1_048_576
}
