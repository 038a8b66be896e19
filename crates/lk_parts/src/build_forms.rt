//! What forms make of what they hold.

ghost use Rattle.lk_parts.specs.Parts.{expr_of, if_form, list_loop, table_loop, where_form, insert_form, change_of, update_form, delete_form, switch_form, query_form, lambda_form, no_cases, case_of, last_case, goes_on, some_case};
ghost use Rattle.lk_read.specs.Kinds.{word_of};
ghost use Rattle.std.specs.Prelude.{◌≡◌, IfOk, Some, None, false};

use crate::build::{form_end, make_closed, make_expr};
use crate::part::{Cases, Change, Ends, Part};
use lk_ast::{
    Case, ChangeExpr, Expr, LambdaExpr, LastCase, List, Loc, NoMemory, Node, PartExpr, SortKey,
    Token, Word,
};
use lk_read::word_of;
use std::alloc::Global;

/// A form that begins here and ends as this says.
fn make_opened(
    alloc: Global,
    begin: u32,
    end: u32,
    kind: Ends,
    node: Node,
) -> Result<Part, NoMemory>
    ensures { IfOk result (λ part. (part.from ≡ begin) × (part.to ≡ end) × (part.expr ≡ expr_of begin end node) × (part.ends ≡ kind) × (part.compared ≡ false)) }
{
    let expr = make_expr(alloc, begin, end, node)?;
    Ok(Part {
        from: begin,
        to: end,
        expr,
        ends: kind,
        compared: false,
    })
}

/// `if (c) d else e`.
pub fn make_if(alloc: Global, word: &Token, c: Part, d: Part, e: Part) -> Result<Part, NoMemory>
    ensures { IfOk result (λ part. part ≡ if_form word.now c d e) }
{
    let to = e.to;
    let ends = form_end(&e);
    let node = Node::If(c.expr, d.expr, e.expr);
    make_opened(alloc, word.span.start, to, ends, node)
}

/// `for (x <- e) d`.
pub fn make_list_loop(
    alloc: Global,
    word: &Token,
    name: &Token,
    e: Part,
    d: Part,
) -> Result<Part, NoMemory>
    ensures { IfOk result (λ part. part ≡ list_loop word.now name.now e d) }
{
    let to = d.to;
    let ends = form_end(&d);
    let node = Node::ForList(word_of(alloc, name)?, e.expr, d.expr);
    make_opened(alloc, word.span.start, to, ends, node)
}

/// `for (x <-- t) d`.
pub fn make_table_loop(
    alloc: Global,
    word: &Token,
    name: &Token,
    table: &Token,
    d: Part,
) -> Result<Part, NoMemory>
    ensures { IfOk result (λ part. part ≡ table_loop word.now name.now table.now d) }
{
    let from = word.span.start;
    let to = d.to;
    let ends = form_end(&d);
    let name = word_of(alloc, name)?;
    let table = word_of(alloc, table)?;
    let rows = make_expr(alloc, from, to, Node::Table(table))?;
    make_opened(alloc, from, to, ends, Node::ForTable(name, rows, d.expr))
}

/// `where (c) e`.
pub fn make_where(alloc: Global, word: &Token, c: Part, e: Part) -> Result<Part, NoMemory>
    ensures { IfOk result (λ part. part ≡ where_form word.now c e) }
{
    let to = e.to;
    let ends = form_end(&e);
    let node = Node::Where(c.expr, e.expr);
    make_opened(alloc, word.span.start, to, ends, node)
}

/// `insert t values e`.
pub fn make_insert(alloc: Global, word: &Token, table: &Token, e: Part) -> Result<Part, NoMemory>
    ensures { IfOk result (λ part. part ≡ insert_form word.now table.now e) }
{
    let to = e.to;
    let ends = form_end(&e);
    let node = Node::Insert(word_of(alloc, table)?, e.expr);
    make_opened(alloc, word.span.start, to, ends, node)
}

/// `(x <-- t) where (c)`.
pub fn make_change(
    alloc: Global,
    name: &Token,
    table: &Token,
    c: Part,
    last: &Token,
) -> Result<Change, NoMemory>
    ensures { IfOk result (λ change. change ≡ change_of name.now table.now c last.now) }
{
    let name = word_of(alloc, name)?;
    let table = word_of(alloc, table)?;
    Ok(Change {
        name,
        table,
        cond: c.expr,
        to: last.span.end,
    })
}

/// `update (x <-- t) where (c) set (l = e)`.
pub fn make_update(
    alloc: Global,
    word: &Token,
    change: Change,
    sets: List<PartExpr>,
    last: &Token,
) -> Result<Part, NoMemory>
    ensures { IfOk result (λ part. part ≡ update_form word.now change sets last.now) }
{
    let node = Node::Update(ChangeExpr {
        name: change.name,
        table: change.table,
        cond: change.cond,
        sets,
    });
    make_closed(alloc, word.span.start, last.span.end, node)
}

/// `delete (x <-- t) where (c)`.
pub fn make_delete(alloc: Global, word: &Token, change: Change) -> Result<Part, NoMemory>
    ensures { IfOk result (λ part. part ≡ delete_form word.now change) }
{
    let to = change.to;
    let node = Node::Delete(ChangeExpr {
        name: change.name,
        table: change.table,
        cond: change.cond,
        sets: List::new(alloc),
    });
    make_closed(alloc, word.span.start, to, node)
}

/// `switch (e) { .. }`.
pub fn make_switch(
    alloc: Global,
    word: &Token,
    e: Part,
    cases: Cases,
    last: &Token,
) -> Result<Part, NoMemory>
    ensures { IfOk result (λ part. part ≡ switch_form word.now e cases last.now) }
{
    let node = Node::Switch(e.expr, cases.list, cases.last);
    make_closed(alloc, word.span.start, last.span.end, node)
}

/// `query orderby (l) { e }`.
pub fn make_query(
    alloc: Global,
    word: &Token,
    keys: List<SortKey>,
    block: Part,
) -> Result<Part, NoMemory>
    ensures { IfOk result (λ part. part ≡ query_form word.now keys block) }
{
    let to = block.to;
    let node = Node::Query(keys, block.expr);
    make_closed(alloc, word.span.start, to, node)
}

/// `fun (x, y) server { e }`.
pub fn make_lambda(
    alloc: Global,
    word: &Token,
    params: List<Word>,
    place: Loc,
    block: Part,
) -> Result<Part, NoMemory>
    ensures { IfOk result (λ part. part ≡ lambda_form word.now params place block) }
{
    let to = block.to;
    let node = Node::Lambda(LambdaExpr {
        params,
        place,
        body: block.expr,
    });
    make_closed(alloc, word.span.start, to, node)
}

/// No case yet.
pub fn no_cases(alloc: Global) -> Cases
    ensures { result ≡ no_cases }
{
    Cases {
        list: List::new(alloc),
        last: None,
    }
}

/// `case T -> e`.
pub fn bare_case(alloc: Global, tag: &Token, e: Part) -> Result<Case, NoMemory>
    ensures { IfOk result (λ case. case ≡ case_of tag.now None e) }
{
    let tag = word_of(alloc, tag)?;
    Ok(Case {
        tag,
        name: None,
        body: e.expr,
    })
}

/// `case T(x) -> e`.
pub fn named_case(alloc: Global, tag: &Token, name: &Token, e: Part) -> Result<Case, NoMemory>
    ensures { IfOk result (λ case. case ≡ case_of tag.now (Some (word_of name.now)) e) }
{
    let tag = word_of(alloc, tag)?;
    let name = word_of(alloc, name)?;
    Ok(Case {
        tag,
        name: Some(name),
        body: e.expr,
    })
}

/// `case x -> e`.
pub fn last_case(alloc: Global, name: &Token, e: Part) -> Result<LastCase, NoMemory>
    ensures { IfOk result (λ case. case ≡ last_case name.now e) }
{
    let name = word_of(alloc, name)?;
    Ok(LastCase { name, body: e.expr })
}

/// Whether no last case has come yet.
pub fn goes_on(cases: &Cases) -> bool
    ensures { result ≡ goes_on cases.now }
{
    match &cases.last {
        None => true,
        Some(_) => false,
    }
}

/// Whether there is a case.
pub fn some_case(cases: &Cases) -> bool
    ensures { result ≡ some_case cases.now }
{
    match (cases.list.as_slice(), &cases.last) {
        ([], None) => false,
        _ => true,
    }
}
