//! Expressions as a line of text, such as `add(name a, call(f, int 1))`. With places each node and each word that stands in
//! one is followed by its span, as in `call@20-24(f@20-21, int 1@22-23)`.

use crate::label::label;
use crate::line::Line;
use lk_ast::{Case, ChangeExpr, Expr, LambdaExpr, LastCase, Node, PartExpr, SortKey};

/// Puts an expression.
#[cycle(shown)]
pub fn put_expr(line: &mut Line, expr: &Expr) {
    let node = expr.node.get();
    line.put(label(node));
    put_value(line, node);
    line.put_place(expr.span);
    if has_parts(node) {
        line.put("(");
        add_operands(line, node);
        line.put(")");
    }
}

/// Puts the value of a node without parts.
fn put_value(line: &mut Line, node: &Node) {
    match node {
        Node::Int(number) => line.put_number(*number),
        Node::Text(text) => line.put_quoted(text.as_str()),
        Node::Name(name) | Node::Function(name) => line.put(name.as_str()),
        _ => {}
    }
}

fn has_parts(node: &Node) -> bool {
    !matches!(
        node,
        Node::Int(_) | Node::Text(_) | Node::Bool(_) | Node::Name(_) | Node::Function(_)
    )
}

/// Adds an expression as a part.
#[cycle(shown)]
pub fn add_expr(line: &mut Line, expr: &Expr) {
    line.put_comma();
    put_expr(line, expr);
}

/// Adds the parts of a node: here where they are expressions.
#[cycle(shown)]
fn add_operands(line: &mut Line, node: &Node) {
    match node {
        Node::Seq(a, b)
        | Node::And(a, b)
        | Node::Or(a, b)
        | Node::Concat(a, b)
        | Node::Append(a, b)
        | Node::Cons(a, b)
        | Node::Add(a, b)
        | Node::Sub(a, b)
        | Node::Mul(a, b)
        | Node::Div(a, b)
        | Node::Mod(a, b)
        | Node::Eq(a, b)
        | Node::Ne(a, b)
        | Node::Lt(a, b)
        | Node::Le(a, b)
        | Node::Gt(a, b)
        | Node::Ge(a, b)
        | Node::Where(a, b) => {
            add_expr(line, a);
            add_expr(line, b);
        }
        Node::Neg(e)
        | Node::Not(e)
        | Node::Hd(e)
        | Node::Tl(e)
        | Node::Empty(e)
        | Node::IntToString(e)
        | Node::Print(e) => add_expr(line, e),
        Node::If(c, d, e) => {
            add_expr(line, c);
            add_expr(line, d);
            add_expr(line, e);
        }
        _ => add_named(line, node),
    }
}

/// Adds the parts of a node: here where one of them is a word.
#[cycle(shown)]
fn add_named(line: &mut Line, node: &Node) {
    match node {
        Node::Call(word, args) => {
            line.add_word(word);
            add_exprs(line, args.as_slice());
        }
        Node::Var(word, a, b) | Node::ForList(word, a, b) | Node::ForTable(word, a, b) => {
            line.add_word(word);
            add_expr(line, a);
            add_expr(line, b);
        }
        Node::Tag(word, e) | Node::Insert(word, e) => {
            line.add_word(word);
            add_expr(line, e);
        }
        Node::Project(e, label) => {
            add_expr(line, e);
            line.add_word(label);
        }
        Node::Table(word) => line.add_word(word),
        _ => add_lists(line, node),
    }
}

/// Adds the parts of a node: here where they stand in a list or in a struct.
#[cycle(shown)]
fn add_lists(line: &mut Line, node: &Node) {
    match node {
        Node::Apply(f, args) => {
            add_expr(line, f);
            add_exprs(line, args.as_slice());
        }
        Node::List(items) => add_exprs(line, items.as_slice()),
        Node::Record(parts) => add_parts(line, parts.as_slice()),
        Node::Extend(parts, e) => {
            line.put("[");
            add_parts(line, parts.as_slice());
            line.put("]");
            add_expr(line, e);
        }
        Node::Query(keys, e) => {
            put_keys(line, keys.as_slice());
            add_expr(line, e);
        }
        Node::Lambda(lambda) => add_lambda(line, lambda),
        Node::Update(change) | Node::Delete(change) => add_change(line, change),
        Node::Switch(e, cases, last) => {
            add_expr(line, e);
            add_cases(line, cases.as_slice());
            add_last(line, last);
        }
        _ => line.put("a node of another kind"),
    }
}

#[cycle(shown)]
fn add_exprs(line: &mut Line, exprs: &[Expr]) {
    for expr in exprs {
        add_expr(line, expr);
    }
}

#[cycle(shown)]
fn add_parts(line: &mut Line, parts: &[PartExpr]) {
    for part in parts {
        line.add_word(&part.label);
        line.put(" = ");
        put_expr(line, &part.expr);
    }
}

/// Puts the keys of a query as a list.
fn put_keys(line: &mut Line, keys: &[SortKey]) {
    line.put("[");
    for key in keys {
        line.add_word(&key.label);
        if key.desc {
            line.put(" desc");
        }
    }
    line.put("]");
}

#[cycle(shown)]
fn add_lambda(line: &mut Line, lambda: &LambdaExpr) {
    line.add_words(lambda.params.as_slice());
    add_expr(line, &lambda.body);
}

#[cycle(shown)]
fn add_change(line: &mut Line, change: &ChangeExpr) {
    line.add_word(&change.name);
    line.add_word(&change.table);
    add_expr(line, &change.cond);
    add_parts(line, change.sets.as_slice());
}

#[cycle(shown)]
fn add_cases(line: &mut Line, cases: &[Case]) {
    for case in cases {
        add_pattern(line, case);
        line.put(" -> ");
        put_expr(line, &case.body);
    }
}

/// Adds what stands before the arrow of a case.
fn add_pattern(line: &mut Line, case: &Case) {
    line.put_comma();
    line.put("case ");
    line.put_word(&case.tag);
    if let Some(name) = &case.name {
        line.put(" ");
        line.put_word(name);
    }
}

#[cycle(shown)]
fn add_last(line: &mut Line, last: &Option<LastCase>) {
    if let Some(last) = last {
        line.put_comma();
        line.put("last ");
        line.put_word(&last.name);
        line.put(" -> ");
        put_expr(line, &last.body);
    }
}
