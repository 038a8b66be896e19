//! Expressions on a line.

ghost use Rattle.lk_ast.specs.declared.expression.Expr.{size-Expr};
ghost use Rattle.lk_ast.specs.declared.expression.Node.{out-Node};
ghost use Rattle.lk_ast.specs.declared.expression.Node.TheOpen.{Node-F};
ghost use Rattle.lk_print.specs.Printed.{form_of, in_round, in_braces, node_form, prefixed, print_node, print_part, separated};
ghost use Rattle.lk_print.specs.Signs.{operator_kind};
ghost use Rattle.lk_print.specs.Written.{spaced};
ghost use Rattle.std.specs.Prelude.{◌≡◌, ◌++◌, ◌∷◌, OnOk, flat_map, map};

use crate::form::{
    write_delete, write_fun, write_if, write_insert, write_list_loop, write_open_switch,
    write_query, write_switch, write_table_loop, write_update, write_where,
};
use crate::operator::{prefix_word, write_operator};
use crate::shape::{Shape, shape_of};
use crate::text_literal::write_text;
use crate::token::{write_int, write_name, write_sign, write_tag, write_word};
use crate::words::write_binder;
use lk_ast::{Expr, NoMemory, Node, PartExpr, Text, Word, first_statement};
use std::alloc::Global;

/// What stands between the braces of a block. The loop goes down its statements, of which there may be more than the stack
/// has room for.
#[cycle(printed)]
pub fn write_inside(alloc: Global, line: &mut Text, e: &Expr) -> Result<(), NoMemory>
    ensures { OnOk result (line.new ≡ line.old ++ flat_map spaced (form_of e.now).inside) }
{
    let mut rest = e;
    while let Some((name, bound, next)) = first_statement(rest) {
        write_binder(line, name)?;
        write_alone(alloc, line, bound)?;
        write_sign(line, ";")?;
        rest = next;
    }
    write_node(alloc, line, rest.node.get())
}

/// An expression where it stands alone between brackets, commas and the like.
#[cycle(printed)]
#[tactic(auto, using(crate::proofs::Appends::behind_both, crate::proofs::Appends::spaced_both, crate::proofs::Appends::spaced_behind))]
pub fn write_alone(alloc: Global, line: &mut Text, e: &Expr) -> Result<(), NoMemory>
    ensures { OnOk result (line.new ≡ line.old ++ flat_map spaced (form_of e.now).alone) }
{
    match shape_of(e) {
        Shape::Primary | Shape::Compound => write_inside(alloc, line, e),
        Shape::Block => write_braces(alloc, line, e),
    }
}

/// An expression as a part of another one.
#[cycle(printed)]
#[tactic(auto, using(crate::proofs::Appends::behind_both, crate::proofs::Appends::spaced_both, crate::proofs::Appends::spaced_behind))]
pub fn write_part(alloc: Global, line: &mut Text, e: &Expr) -> Result<(), NoMemory>
    ensures { OnOk result (line.new ≡ line.old ++ flat_map spaced (form_of e.now).part) }
{
    match shape_of(e) {
        Shape::Primary => write_inside(alloc, line, e),
        Shape::Compound => {
            write_sign(line, "(")?;
            write_inside(alloc, line, e)?;
            write_sign(line, ")")
        }
        Shape::Block => write_braces(alloc, line, e),
    }
}

/// A block in its braces.
#[cycle(printed)]
#[tactic(auto, using(crate::proofs::Appends::behind_both, crate::proofs::Appends::spaced_both, crate::proofs::Appends::spaced_behind))]
pub fn write_braces(alloc: Global, line: &mut Text, e: &Expr) -> Result<(), NoMemory>
    ensures { OnOk result (line.new ≡ line.old ++ flat_map spaced (in_braces (form_of e.now).inside)) }
{
    write_sign(line, "{")?;
    write_inside(alloc, line, e)?;
    write_sign(line, "}")
}

/// An expression in parentheses that don't belong to it.
#[cycle(printed)]
#[tactic(auto, using(crate::proofs::Appends::behind_both, crate::proofs::Appends::spaced_both, crate::proofs::Appends::spaced_behind))]
pub fn write_round(alloc: Global, line: &mut Text, e: &Expr) -> Result<(), NoMemory>
    ensures { OnOk result (line.new ≡ line.old ++ flat_map spaced (in_round (form_of e.now).alone)) }
{
    write_sign(line, "(")?;
    write_alone(alloc, line, e)?;
    write_sign(line, ")")
}

/// What an expression is, without the parentheses or braces that its place asks for.
#[cycle(printed)]
fn write_node(alloc: Global, line: &mut Text, node: &Node) -> Result<(), NoMemory>
    ensures { OnOk result (line.new ≡ line.old ++ flat_map spaced (print_node node.now).inside) }
{
    match node {
        Node::Int(number) => write_int(alloc, line, *number),
        Node::Text(text) => write_text(alloc, line, text.as_str()),
        Node::Bool(truth) => write_truth(line, *truth),
        Node::Name(name) | Node::Function(name) => write_word(line, name.as_str()),
        Node::Table(table) => write_name(line, table),
        Node::Call(name, args) => write_call(alloc, line, name, args.as_slice()),
        Node::Apply(f, args) => write_apply(alloc, line, f, args.as_slice()),
        Node::Var(name, bound, rest) => write_var(alloc, line, name, bound, rest),
        Node::Seq(statement, rest) => write_seq(alloc, line, statement, rest),
        Node::And(a, b)
        | Node::Or(a, b)
        | Node::Concat(a, b)
        | Node::Append(a, b)
        | Node::Cons(a, b)
        | Node::Add(a, b)
        | Node::Sub(a, b)
        | Node::Mul(a, b)
        | Node::Div(a, b)
        | Node::Mod(a, b)
        | Node::Eq(a, b)
        | Node::Ne(a, b)
        | Node::Lt(a, b)
        | Node::Le(a, b)
        | Node::Gt(a, b)
        | Node::Ge(a, b) => write_infix(alloc, line, a, node, b),
        Node::Not(e)
        | Node::Hd(e)
        | Node::Tl(e)
        | Node::Empty(e)
        | Node::IntToString(e)
        | Node::Print(e) => write_prefix(alloc, line, prefix_word(node), e),
        Node::Neg(e) => write_minus(alloc, line, e),
        Node::Record(parts) => write_record(alloc, line, parts.as_slice()),
        Node::Extend(parts, e) => write_extend(alloc, line, parts.as_slice(), e),
        Node::List(items) => write_list(alloc, line, items.as_slice()),
        Node::Project(e, label) => write_project(alloc, line, e, label),
        Node::Tag(tag, e) => write_tagged(alloc, line, tag, e),
        Node::Lambda(lambda) => write_fun(alloc, line, lambda),
        Node::If(c, d, e) => write_if(alloc, line, c, d, e),
        Node::Switch(e, cases, None) => write_switch(alloc, line, e, cases.as_slice()),
        Node::Switch(e, cases, Some(last)) => {
            write_open_switch(alloc, line, e, cases.as_slice(), last)
        }
        Node::ForList(name, e, body) => write_list_loop(alloc, line, name, e, body),
        Node::ForTable(name, rows, body) => write_table_loop(alloc, line, name, rows, body),
        Node::Where(c, e) => write_where(alloc, line, c, e),
        Node::Query(keys, e) => write_query(alloc, line, keys.as_slice(), e),
        Node::Insert(table, e) => write_insert(alloc, line, table, e),
        Node::Update(change) => write_update(alloc, line, change),
        Node::Delete(change) => write_delete(alloc, line, change),
    }
}

/// `true`, `false`.
fn write_truth(line: &mut Text, truth: bool) -> Result<(), NoMemory>
    ensures { OnOk result (line.new ≡ line.old ++ flat_map spaced (node_form (Node-F.Bool truth)).inside) }
{
    if truth {
        write_word(line, "true")
    } else {
        write_word(line, "false")
    }
}

/// `g(e, d)`.
#[cycle(printed)]
#[tactic(auto, using(crate::proofs::Appends::behind_both, crate::proofs::Appends::spaced_both))]
fn write_call(alloc: Global, line: &mut Text, name: &Word, args: &[Expr]) -> Result<(), NoMemory>
    ensures { OnOk result (line.new ≡ line.old ++ flat_map spaced (node_form (Node-F.Call name.now (map form_of args.now))).inside) }
{
    write_name(line, name)?;
    write_args(alloc, line, args)
}

/// `f(e, d)`, where `f` is any expression.
#[cycle(printed)]
#[tactic(auto, using(crate::proofs::Appends::behind_both, crate::proofs::Appends::spaced_both))]
fn write_apply(alloc: Global, line: &mut Text, f: &Expr, args: &[Expr]) -> Result<(), NoMemory>
    ensures { OnOk result (line.new ≡ line.old ++ flat_map spaced (node_form (Node-F.Apply (form_of f.now) (map form_of args.now))).inside) }
{
    write_part(alloc, line, f)?;
    write_args(alloc, line, args)
}

/// `var x = e; rest`.
#[cycle(printed)]
#[tactic(auto, using(crate::proofs::Appends::behind_both, crate::proofs::Appends::spaced_both))]
fn write_var(
    alloc: Global,
    line: &mut Text,
    name: &Word,
    bound: &Expr,
    rest: &Expr,
) -> Result<(), NoMemory>
    ensures { OnOk result (line.new ≡ line.old ++ flat_map spaced (node_form (Node-F.Var name.now (form_of bound.now) (form_of rest.now))).inside) }
{
    write_binder(line, Some(name))?;
    write_alone(alloc, line, bound)?;
    write_sign(line, ";")?;
    write_inside(alloc, line, rest)
}

/// `e; rest`.
#[cycle(printed)]
#[tactic(auto, using(crate::proofs::Appends::behind_both, crate::proofs::Appends::spaced_both))]
fn write_seq(alloc: Global, line: &mut Text, statement: &Expr, rest: &Expr) -> Result<(), NoMemory>
    ensures { OnOk result (line.new ≡ line.old ++ flat_map spaced (node_form (Node-F.Seq (form_of statement.now) (form_of rest.now))).inside) }
{
    write_alone(alloc, line, statement)?;
    write_sign(line, ";")?;
    write_inside(alloc, line, rest)
}

/// Two operands, and between them the operator of this node.
#[cycle(printed)]
#[tactic(auto, using(crate::proofs::Appends::behind_both, crate::proofs::Appends::spaced_both))]
fn write_infix(
    alloc: Global,
    line: &mut Text,
    a: &Expr,
    node: &Node,
    b: &Expr,
) -> Result<(), NoMemory>
    ensures { OnOk result (line.new ≡ line.old ++ flat_map spaced ((form_of a.now).part ++ operator_kind (out-Node node.now) ∷ (form_of b.now).part)) }
{
    write_part(alloc, line, a)?;
    write_operator(line, node)?;
    write_part(alloc, line, b)
}

/// `hd(e)`, for a word like `hd`.
#[cycle(printed)]
#[tactic(auto, using(crate::proofs::Appends::behind_both, crate::proofs::Appends::spaced_both))]
fn write_prefix(alloc: Global, line: &mut Text, word: &str, e: &Expr) -> Result<(), NoMemory>
    ensures { OnOk result (line.new ≡ line.old ++ flat_map spaced (prefixed word.now (form_of e.now)).inside) }
{
    write_word(line, word)?;
    write_round(alloc, line, e)
}

/// `-e`.
#[cycle(printed)]
#[tactic(auto, using(crate::proofs::Appends::behind_both, crate::proofs::Appends::spaced_both))]
fn write_minus(alloc: Global, line: &mut Text, e: &Expr) -> Result<(), NoMemory>
    ensures { OnOk result (line.new ≡ line.old ++ flat_map spaced (node_form (Node-F.Neg (form_of e.now))).inside) }
{
    write_sign(line, "-")?;
    write_part(alloc, line, e)
}

/// `(l = d | e)`.
#[cycle(printed)]
#[tactic(auto, using(crate::proofs::Appends::behind_both, crate::proofs::Appends::spaced_both))]
fn write_extend(
    alloc: Global,
    line: &mut Text,
    parts: &[PartExpr],
    e: &Expr,
) -> Result<(), NoMemory>
    ensures { OnOk result (line.new ≡ line.old ++ flat_map spaced (node_form (Node-F.Extend (map print_part parts.now) (form_of e.now))).inside) }
{
    write_sign(line, "(")?;
    write_parts(alloc, line, parts)?;
    write_sign(line, "|")?;
    write_alone(alloc, line, e)?;
    write_sign(line, ")")
}

/// `[e, d]`.
#[cycle(printed)]
#[tactic(auto, using(crate::proofs::Appends::behind_both, crate::proofs::Appends::spaced_both))]
fn write_list(alloc: Global, line: &mut Text, items: &[Expr]) -> Result<(), NoMemory>
    ensures { OnOk result (line.new ≡ line.old ++ flat_map spaced (node_form (Node-F.List (map form_of items.now))).inside) }
{
    write_sign(line, "[")?;
    write_exprs(alloc, line, items)?;
    write_sign(line, "]")
}

/// `e.l`.
#[cycle(printed)]
#[tactic(auto, using(crate::proofs::Appends::behind_both, crate::proofs::Appends::spaced_both))]
fn write_project(alloc: Global, line: &mut Text, e: &Expr, label: &Word) -> Result<(), NoMemory>
    ensures { OnOk result (line.new ≡ line.old ++ flat_map spaced (node_form (Node-F.Project (form_of e.now) label.now)).inside) }
{
    write_part(alloc, line, e)?;
    write_sign(line, ".")?;
    write_name(line, label)
}

/// `T(e)`.
#[cycle(printed)]
#[tactic(auto, using(crate::proofs::Appends::behind_both, crate::proofs::Appends::spaced_both))]
fn write_tagged(alloc: Global, line: &mut Text, tag: &Word, e: &Expr) -> Result<(), NoMemory>
    ensures { OnOk result (line.new ≡ line.old ++ flat_map spaced (node_form (Node-F.Tag tag.now (form_of e.now))).inside) }
{
    write_tag(line, tag.text.as_str())?;
    write_round(alloc, line, e)
}

/// `(e, d)`.
#[cycle(printed)]
#[tactic(auto, using(crate::proofs::Appends::behind_both, crate::proofs::Appends::spaced_both, crate::proofs::Appends::spaced_behind))]
fn write_args(alloc: Global, line: &mut Text, exprs: &[Expr]) -> Result<(), NoMemory>
    ensures { OnOk result (line.new ≡ line.old ++ flat_map spaced (in_round (separated (map (λ e. e.alone) (map form_of exprs.now))))) }
{
    write_sign(line, "(")?;
    write_exprs(alloc, line, exprs)?;
    write_sign(line, ")")
}

/// `e, d`.
#[cycle(printed)]
#[tactic(auto, using(crate::proofs::Appends::behind_both, crate::proofs::Appends::spaced_both, crate::proofs::Appends::alone_behind))]
fn write_exprs(alloc: Global, line: &mut Text, exprs: &[Expr]) -> Result<(), NoMemory>
    ensures { OnOk result (line.new ≡ line.old ++ flat_map spaced (separated (map (λ e. e.alone) (map form_of exprs.now)))) }
{
    if let Some((first, rest)) = exprs.split_first() {
        write_alone(alloc, line, first)?;
        for e in rest {
            write_sign(line, ",")?;
            write_alone(alloc, line, e)?;
        }
    }
    Ok(())
}

/// `(l = e, m = d)`.
#[cycle(printed)]
#[tactic(auto, using(crate::proofs::Appends::behind_both, crate::proofs::Appends::spaced_both, crate::proofs::Appends::spaced_behind))]
pub fn write_record(alloc: Global, line: &mut Text, parts: &[PartExpr]) -> Result<(), NoMemory>
    ensures { OnOk result (line.new ≡ line.old ++ flat_map spaced (in_round (separated (map print_part parts.now)))) }
{
    write_sign(line, "(")?;
    write_parts(alloc, line, parts)?;
    write_sign(line, ")")
}

/// `l = e, m = d`.
#[cycle(printed)]
#[tactic(auto, using(crate::proofs::Appends::behind_both, crate::proofs::Appends::spaced_both, crate::proofs::Appends::spaced_behind))]
fn write_parts(alloc: Global, line: &mut Text, parts: &[PartExpr]) -> Result<(), NoMemory>
    ensures { OnOk result (line.new ≡ line.old ++ flat_map spaced (separated (map print_part parts.now))) }
{
    if let Some((first, rest)) = parts.split_first() {
        write_set(alloc, line, first)?;
        for part in rest {
            write_sign(line, ",")?;
            write_set(alloc, line, part)?;
        }
    }
    Ok(())
}

/// `l = e`.
#[cycle(printed)]
#[tactic(auto, using(crate::proofs::Appends::behind_both, crate::proofs::Appends::spaced_both, crate::proofs::Appends::spaced_behind))]
fn write_set(alloc: Global, line: &mut Text, part: &PartExpr) -> Result<(), NoMemory>
    ensures { OnOk result (line.new ≡ line.old ++ flat_map spaced (print_part part.now)) }
{
    write_name(line, &part.label)?;
    write_sign(line, "=")?;
    write_alone(alloc, line, &part.expr)
}
