//! What parts make of what they hold.

ghost use Rattle.lk_parts.specs.Parts.{text_of, expr_of, closed, behind, is_form_end, form_end, takes_operator, takes_comparison, takes_call, is_bare_name, literal_node, literal, named, label_of, wrapped, part_of, record_of, extended, list_of, hidden_unit, bare_tag, unit_tag, tagged, prefixed, called, projected, var_statement, plain_statement, braced, negated, compared_by, binary};
ghost use Rattle.std.specs.Prelude.{◌≡◌, IfOk};

use crate::chain::make_chain;
use crate::operators::{Level, operator_node, prefix_node};
use crate::part::{Ends, Part, Statement};
use lk_ast::{Boxed, Expr, List, NoMemory, Node, PartExpr, Span, Text, Token, TokenKind, Word};
use lk_read::word_of;
use std::alloc::Global;

/// What a word, a tag, a text literal or a sign says.
fn text_of(token: &Token) -> &str
    ensures { result.now ≡ text_of token.now }
{
    match &token.kind {
        TokenKind::Word(text)
        | TokenKind::Tag(text)
        | TokenKind::Text(text)
        | TokenKind::Sign(text) => text.as_str(),
        TokenKind::Int(_) => "",
    }
}

/// An expression from one byte to another.
pub fn make_expr(alloc: Global, from: u32, to: u32, node: Node) -> Result<Expr, NoMemory>
    ensures { IfOk result (λ expr. expr ≡ expr_of from to node) }
{
    let span = Span {
        start: from,
        end: to,
    };
    let node = Boxed::new(alloc, node)?;
    Ok(Expr { span, node })
}

/// A part that takes nothing of what stands behind it.
pub fn make_closed(alloc: Global, from: u32, to: u32, node: Node) -> Result<Part, NoMemory>
    ensures { IfOk result (λ part. part ≡ closed from to node) }
{
    let expr = make_expr(alloc, from, to, node)?;
    Ok(Part {
        from,
        to,
        expr,
        ends: Ends::Closed,
        compared: false,
    })
}

/// The end of a part whose last part this is.
fn behind(ends: Ends) -> Ends
    ensures { result ≡ behind ends }
{
    match ends {
        Ends::Form => Ends::Form,
        Ends::Compared => Ends::Compared,
        _ => Ends::Closed,
    }
}

/// Whether a part ends in a form that takes any operator.
fn is_form_end(ends: Ends) -> bool
    ensures { result ≡ is_form_end ends }
{
    matches!(ends, Ends::Form)
}

/// The end of a form that ends in an expression.
pub fn form_end(e: &Part) -> Ends
    ensures { result ≡ form_end e.now }
{
    if is_form_end(e.ends) || !e.compared {
        Ends::Form
    } else {
        Ends::Compared
    }
}

/// Whether an operator can stand behind a part.
pub fn takes_operator(a: &Part) -> bool
    ensures { result ≡ takes_operator a.now }
{
    !matches!(a.ends, Ends::Form | Ends::Compared)
}

/// Whether a comparison can stand behind a part.
pub fn takes_comparison(a: &Part) -> bool
    ensures { result ≡ takes_comparison a.now }
{
    !is_form_end(a.ends)
}

/// Whether a call can stand behind a part.
pub fn takes_call(f: &Part) -> bool
    ensures { result ≡ takes_call f.now }
{
    !matches!(f.ends, Ends::Tag)
}

/// Whether a part is one word that names something.
pub fn is_bare_name(e: &Part) -> bool
    ensures { result ≡ is_bare_name e.now }
{
    matches!(e.ends, Ends::Name)
}

/// What a literal is.
fn literal_node(alloc: Global, token: &Token) -> Result<Node, NoMemory>
    ensures { IfOk result (λ node. node ≡ literal_node token.now.kind) }
{
    match &token.kind {
        TokenKind::Int(number) => Ok(Node::Int(*number)),
        TokenKind::Text(text) => Ok(Node::Text(text.copy(alloc)?)),
        TokenKind::Word(word) => Ok(Node::Bool(word.as_str() == "true")),
        TokenKind::Tag(_) | TokenKind::Sign(_) => Ok(Node::Bool(false)),
    }
}

/// A number, a text, `true` or `false`.
pub fn make_literal(alloc: Global, token: &Token) -> Result<Part, NoMemory>
    ensures { IfOk result (λ part. part ≡ literal token.now) }
{
    let node = literal_node(alloc, token)?;
    make_closed(alloc, token.span.start, token.span.end, node)
}

/// A name.
pub fn make_named(alloc: Global, token: &Token) -> Result<Part, NoMemory>
    ensures { IfOk result (λ part. part ≡ named token.now) }
{
    let from = token.span.start;
    let to = token.span.end;
    let name = Text::from_str(alloc, text_of(token))?;
    let expr = make_expr(alloc, from, to, Node::Name(name))?;
    Ok(Part {
        from,
        to,
        expr,
        ends: Ends::Name,
        compared: false,
    })
}

/// The name that a part is.
pub fn label_of(alloc: Global, e: &Part) -> Result<Word, NoMemory>
    ensures { IfOk result (λ label. label ≡ label_of e.now) }
{
    let at = e.expr.span;
    let text = match e.expr.node.get() {
        Node::Name(text) => text.copy(alloc)?,
        _ => Text::new(alloc),
    };
    Ok(Word { at, text })
}

/// An expression in parentheses.
pub fn make_wrapped(first: &Token, e: Part, last: &Token) -> Part
    ensures { result ≡ wrapped first.now e last.now }
{
    Part {
        from: first.span.start,
        to: last.span.end,
        expr: e.expr,
        ends: Ends::Closed,
        compared: false,
    }
}

/// `(l = e, m = e)`.
pub fn make_record(
    alloc: Global,
    first: &Token,
    parts: List<PartExpr>,
    last: &Token,
) -> Result<Part, NoMemory>
    ensures { IfOk result (λ part. part ≡ record_of first.now parts last.now) }
{
    make_closed(alloc, first.span.start, last.span.end, Node::Record(parts))
}

/// `(l = e | r)`.
pub fn make_extended(
    alloc: Global,
    first: &Token,
    parts: List<PartExpr>,
    other: Part,
    last: &Token,
) -> Result<Part, NoMemory>
    ensures { IfOk result (λ part. part ≡ extended first.now parts other last.now) }
{
    let node = Node::Extend(parts, other.expr);
    make_closed(alloc, first.span.start, last.span.end, node)
}

/// `[e, e]`.
pub fn make_list(
    alloc: Global,
    first: &Token,
    items: List<Expr>,
    last: &Token,
) -> Result<Part, NoMemory>
    ensures { IfOk result (λ part. part ≡ list_of first.now items last.now) }
{
    make_closed(alloc, first.span.start, last.span.end, Node::List(items))
}

/// The unit value that the text leaves out.
fn hidden_unit(alloc: Global, from: u32, to: u32) -> Result<Expr, NoMemory>
    ensures { IfOk result (λ expr. expr ≡ hidden_unit from to) }
{
    make_expr(alloc, from, to, Node::Record(List::new(alloc)))
}

/// `T`.
pub fn make_bare_tag(alloc: Global, tag: &Token) -> Result<Part, NoMemory>
    ensures { IfOk result (λ part. part ≡ bare_tag tag.now) }
{
    let from = tag.span.start;
    let to = tag.span.end;
    let unit = hidden_unit(alloc, from, to)?;
    let expr = make_expr(alloc, from, to, Node::Tag(word_of(alloc, tag)?, unit))?;
    Ok(Part {
        from,
        to,
        expr,
        ends: Ends::Tag,
        compared: false,
    })
}

/// `T()`.
pub fn make_unit_tag(alloc: Global, tag: &Token, last: &Token) -> Result<Part, NoMemory>
    ensures { IfOk result (λ part. part ≡ unit_tag tag.now last.now) }
{
    let from = tag.span.start;
    let to = last.span.end;
    let unit = hidden_unit(alloc, from, to)?;
    let tag = word_of(alloc, tag)?;
    make_closed(alloc, from, to, Node::Tag(tag, unit))
}

/// `T(e)`.
pub fn make_tagged(alloc: Global, tag: &Token, e: Part, last: &Token) -> Result<Part, NoMemory>
    ensures { IfOk result (λ part. part ≡ tagged tag.now e last.now) }
{
    let node = Node::Tag(word_of(alloc, tag)?, e.expr);
    make_closed(alloc, tag.span.start, last.span.end, node)
}

/// `not(e)` and the like.
pub fn make_prefixed(alloc: Global, word: &Token, e: Part, last: &Token) -> Result<Part, NoMemory>
    ensures { IfOk result (λ part. part ≡ prefixed word.now e last.now) }
{
    let node = prefix_node(text_of(word), e.expr);
    make_closed(alloc, word.span.start, last.span.end, node)
}

/// `f(e, e)`.
pub fn make_called(alloc: Global, f: Part, args: List<Expr>, last: &Token) -> Result<Part, NoMemory>
    ensures { IfOk result (λ part. part ≡ called f args last.now) }
{
    let from = f.from;
    make_closed(alloc, from, last.span.end, Node::Apply(f.expr, args))
}

/// `e.l`.
pub fn make_projected(alloc: Global, e: Part, label: &Token) -> Result<Part, NoMemory>
    ensures { IfOk result (λ part. part ≡ projected e label.now) }
{
    let from = e.from;
    let node = Node::Project(e.expr, word_of(alloc, label)?);
    make_closed(alloc, from, label.span.end, node)
}

/// `var x = e;`.
pub fn var_statement(
    alloc: Global,
    word: &Token,
    name: &Token,
    e: Part,
) -> Result<Statement, NoMemory>
    ensures { IfOk result (λ statement. statement ≡ var_statement word.now name.now e) }
{
    let name = word_of(alloc, name)?;
    Ok(Statement {
        from: word.span.start,
        name: Some(name),
        expr: e.expr,
    })
}

/// `e;`.
pub fn plain_statement(e: Part) -> Statement
    ensures { result ≡ plain_statement e }
{
    Statement {
        from: e.from,
        name: None,
        expr: e.expr,
    }
}

/// `{ var x = e; e; e }`.
pub fn make_braced(
    alloc: Global,
    first: &Token,
    statements: List<Statement>,
    e: Part,
    last: &Token,
) -> Result<Part, NoMemory>
    ensures { IfOk result (λ part. part ≡ braced first.now statements e last.now) }
{
    let to = e.to;
    let expr = make_chain(alloc, statements, to, e.expr)?;
    Ok(Part {
        from: first.span.start,
        to: last.span.end,
        expr,
        ends: Ends::Closed,
        compared: false,
    })
}

/// `-e`.
pub fn make_negated(alloc: Global, sign: &Token, e: Part) -> Result<Part, NoMemory>
    ensures { IfOk result (λ part. part ≡ negated sign.now e) }
{
    let from = sign.span.start;
    let to = e.to;
    let ends = behind(e.ends);
    let expr = make_expr(alloc, from, to, Node::Neg(e.expr))?;
    Ok(Part {
        from,
        to,
        expr,
        ends,
        compared: false,
    })
}

/// Whether the comparison at the right end is made, so that no other one goes on with it.
fn compared_by(level: Level, b: &Part) -> bool
    ensures { result ≡ compared_by level b.now }
{
    match level {
        Level::Or | Level::And => b.compared,
        Level::Comparison => true,
        Level::Join | Level::Sum | Level::Product => false,
    }
}

/// `a + b` and the like.
pub fn make_binary(
    alloc: Global,
    level: Level,
    a: Part,
    sign: &Token,
    b: Part,
) -> Result<Part, NoMemory>
    ensures { IfOk result (λ part. part ≡ binary level a sign.now b) }
{
    let from = a.from;
    let to = b.to;
    let ends = behind(b.ends);
    let compared = compared_by(level, &b);
    let node = operator_node(level, text_of(sign), a.expr, b.expr);
    let expr = make_expr(alloc, from, to, node)?;
    Ok(Part {
        from,
        to,
        expr,
        ends,
        compared,
    })
}

/// `l = e`, of a record, an extension or a change.
pub fn part_of(label: Word, e: Part) -> PartExpr
    ensures { result ≡ part_of label e }
{
    PartExpr {
        label,
        expr: e.expr,
    }
}
