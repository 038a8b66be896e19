//! Forms on a line: expressions that begin with a word of their own.

ghost use Rattle.lk_ast.specs.declared.expression.Node.TheOpen.{Node-F};
ghost use Rattle.lk_ast.specs.declared.expression.Node.TheVariants as node;
ghost use Rattle.lk_print.specs.Printed.{form_of, in_round, joined, node_form, print_case, print_change, print_lambda, print_last, print_node};
ghost use Rattle.lk_print.specs.Written.{spaced};
ghost use Rattle.std.specs.Prelude.{◌≡◌, ◌++◌, None, OnOk, Some, flat_map, map};

use crate::expression::{write_alone, write_braces, write_part, write_record, write_round};
use crate::token::{write_name, write_sign, write_tag, write_word};
use crate::words::{write_case_name, write_names, write_order, write_place, write_source};
use lk_ast::{Case, ChangeExpr, Expr, LambdaExpr, LastCase, NoMemory, SortKey, Text, Word};
use std::alloc::Global;

/// `fun (x, y) client { e }`.
#[cycle(printed)]
#[tactic(auto, using(crate::proofs::Appends::behind_both, crate::proofs::Appends::spaced_both))]
pub fn write_fun(alloc: Global, line: &mut Text, lambda: &LambdaExpr) -> Result<(), NoMemory>
    ensures { OnOk result (line.new ≡ line.old ++ flat_map spaced (node_form (Node-F.Lambda (print_lambda lambda.now))).inside) }
{
    write_word(line, "fun")?;
    write_lambda(alloc, line, lambda)
}

/// `if (c) d else e`.
#[cycle(printed)]
#[tactic(auto, using(crate::proofs::Appends::behind_both, crate::proofs::Appends::spaced_both))]
pub fn write_if(
    alloc: Global,
    line: &mut Text,
    c: &Expr,
    d: &Expr,
    e: &Expr,
) -> Result<(), NoMemory>
    ensures { OnOk result (line.new ≡ line.old ++ flat_map spaced (node_form (Node-F.If (form_of c.now) (form_of d.now) (form_of e.now))).inside) }
{
    write_word(line, "if")?;
    write_round(alloc, line, c)?;
    write_part(alloc, line, d)?;
    write_word(line, "else")?;
    write_part(alloc, line, e)
}

/// `switch (e) { case T(x) -> d }`.
#[cycle(printed)]
#[tactic(auto, using(crate::proofs::Appends::behind_both, crate::proofs::Appends::spaced_both))]
pub fn write_switch(
    alloc: Global,
    line: &mut Text,
    e: &Expr,
    cases: &[Case],
) -> Result<(), NoMemory>
    ensures { OnOk result (line.new ≡ line.old ++ flat_map spaced (node_form (Node-F.Switch (form_of e.now) (map print_case cases.now) None)).inside) }
{
    write_word(line, "switch")?;
    write_round(alloc, line, e)?;
    write_sign(line, "{")?;
    write_cases(alloc, line, cases)?;
    write_sign(line, "}")
}

/// `switch (e) { case T(x) -> d case y -> c }`.
#[cycle(printed)]
#[tactic(auto, using(crate::proofs::Appends::behind_both, crate::proofs::Appends::spaced_both))]
pub fn write_open_switch(
    alloc: Global,
    line: &mut Text,
    e: &Expr,
    cases: &[Case],
    last: &LastCase,
) -> Result<(), NoMemory>
    ensures { OnOk result (line.new ≡ line.old ++ flat_map spaced (node_form (Node-F.Switch (form_of e.now) (map print_case cases.now) (Some (print_last last.now)))).inside) }
{
    write_word(line, "switch")?;
    write_round(alloc, line, e)?;
    write_sign(line, "{")?;
    write_cases(alloc, line, cases)?;
    write_last(alloc, line, last)?;
    write_sign(line, "}")
}

/// `for (x <- e) body`.
#[cycle(printed)]
#[tactic(auto, using(crate::proofs::Appends::behind_both, crate::proofs::Appends::spaced_both))]
pub fn write_list_loop(
    alloc: Global,
    line: &mut Text,
    name: &Word,
    e: &Expr,
    body: &Expr,
) -> Result<(), NoMemory>
    ensures { OnOk result (line.new ≡ line.old ++ flat_map spaced (node_form (Node-F.ForList name.now (form_of e.now) (form_of body.now))).inside) }
{
    write_word(line, "for")?;
    write_sign(line, "(")?;
    write_name(line, name)?;
    write_sign(line, "<-")?;
    write_part(alloc, line, e)?;
    write_sign(line, ")")?;
    write_part(alloc, line, body)
}

/// `for (x <-- t) body`.
#[cycle(printed)]
#[tactic(auto, using(crate::proofs::Appends::behind_both, crate::proofs::Appends::spaced_both))]
pub fn write_table_loop(
    alloc: Global,
    line: &mut Text,
    name: &Word,
    rows: &Expr,
    body: &Expr,
) -> Result<(), NoMemory>
    ensures { OnOk result (line.new ≡ line.old ++ flat_map spaced (node_form (Node-F.ForTable name.now (form_of rows.now) (form_of body.now))).inside) }
{
    write_word(line, "for")?;
    write_sign(line, "(")?;
    write_name(line, name)?;
    write_sign(line, "<--")?;
    write_alone(alloc, line, rows)?;
    write_sign(line, ")")?;
    write_part(alloc, line, body)
}

/// `where (c) e`.
#[cycle(printed)]
#[tactic(auto, using(crate::proofs::Appends::behind_both, crate::proofs::Appends::spaced_both))]
pub fn write_where(alloc: Global, line: &mut Text, c: &Expr, e: &Expr) -> Result<(), NoMemory>
    ensures { OnOk result (line.new ≡ line.old ++ flat_map spaced (node_form (Node-F.Where (form_of c.now) (form_of e.now))).inside) }
{
    write_word(line, "where")?;
    write_round(alloc, line, c)?;
    write_part(alloc, line, e)
}

/// `query orderby (l) { e }`.
#[cycle(printed)]
#[tactic(auto, using(crate::proofs::Appends::behind_both, crate::proofs::Appends::spaced_both))]
pub fn write_query(
    alloc: Global,
    line: &mut Text,
    keys: &[SortKey],
    e: &Expr,
) -> Result<(), NoMemory>
    ensures { OnOk result (line.new ≡ line.old ++ flat_map spaced (node_form (Node-F.Query keys.now (form_of e.now))).inside) }
{
    write_word(line, "query")?;
    write_order(line, keys)?;
    write_braces(alloc, line, e)
}

/// `insert t values e`.
#[cycle(printed)]
#[tactic(auto, using(crate::proofs::Appends::behind_both, crate::proofs::Appends::spaced_both))]
pub fn write_insert(alloc: Global, line: &mut Text, table: &Word, e: &Expr) -> Result<(), NoMemory>
    ensures { OnOk result (line.new ≡ line.old ++ flat_map spaced (node_form (Node-F.Insert table.now (form_of e.now))).inside) }
{
    write_word(line, "insert")?;
    write_name(line, table)?;
    write_word(line, "values")?;
    write_part(alloc, line, e)
}

/// `update (x <-- t) where (c) set (l = e)`.
#[cycle(printed)]
#[tactic(auto, using(crate::proofs::Appends::behind_both, crate::proofs::Appends::spaced_both))]
pub fn write_update(alloc: Global, line: &mut Text, change: &ChangeExpr) -> Result<(), NoMemory>
    ensures { OnOk result (line.new ≡ line.old ++ flat_map spaced (print_node (node.Update change.now)).inside) }
{
    write_word(line, "update")?;
    write_rows(alloc, line, change)?;
    write_word(line, "set")?;
    write_sets(alloc, line, change)
}

/// `delete (x <-- t) where (c)`.
#[cycle(printed)]
#[tactic(auto, using(crate::proofs::Appends::behind_both, crate::proofs::Appends::spaced_both))]
pub fn write_delete(alloc: Global, line: &mut Text, change: &ChangeExpr) -> Result<(), NoMemory>
    ensures { OnOk result (line.new ≡ line.old ++ flat_map spaced (print_node (node.Delete change.now)).inside) }
{
    write_word(line, "delete")?;
    write_rows(alloc, line, change)
}

/// `(x, y) client { e }`.
#[cycle(printed)]
#[tactic(auto, using(crate::proofs::Appends::behind_both, crate::proofs::Appends::spaced_both, crate::proofs::Appends::spaced_behind))]
fn write_lambda(alloc: Global, line: &mut Text, lambda: &LambdaExpr) -> Result<(), NoMemory>
    ensures { OnOk result (line.new ≡ line.old ++ flat_map spaced (print_lambda lambda.now)) }
{
    write_sign(line, "(")?;
    write_names(line, lambda.params.as_slice())?;
    write_sign(line, ")")?;
    write_place(line, lambda.place)?;
    write_braces(alloc, line, &lambda.body)
}

/// `(x <-- t) where (c)`.
#[cycle(printed)]
#[tactic(auto, using(crate::proofs::Appends::behind_both, crate::proofs::Appends::spaced_both, crate::proofs::Appends::spaced_behind))]
fn write_rows(alloc: Global, line: &mut Text, change: &ChangeExpr) -> Result<(), NoMemory>
    ensures { OnOk result (line.new ≡ line.old ++ flat_map spaced (print_change change.now).rows) }
{
    write_source(line, &change.name, &change.table)?;
    write_word(line, "where")?;
    write_round(alloc, line, &change.cond)
}

/// `(l = e, m = d)` of an update.
#[cycle(printed)]
#[tactic(auto, using(crate::proofs::Appends::behind_both, crate::proofs::Appends::spaced_both, crate::proofs::Appends::spaced_behind))]
fn write_sets(alloc: Global, line: &mut Text, change: &ChangeExpr) -> Result<(), NoMemory>
    ensures { OnOk result (line.new ≡ line.old ++ flat_map spaced (in_round (print_change change.now).sets)) }
{
    write_record(alloc, line, change.sets.as_slice())
}

/// The cases of a switch but for the last one.
#[cycle(printed)]
#[tactic(auto, using(crate::proofs::Appends::behind_both, crate::proofs::Appends::spaced_both, crate::proofs::Appends::spaced_joined))]
fn write_cases(alloc: Global, line: &mut Text, cases: &[Case]) -> Result<(), NoMemory>
    ensures { OnOk result (line.new ≡ line.old ++ flat_map spaced (joined (map print_case cases.now))) }
{
    for case in cases {
        write_case(alloc, line, case)?;
    }
    Ok(())
}

/// `case T(x) -> e`, `case T -> e`.
#[cycle(printed)]
#[tactic(auto, using(crate::proofs::Appends::behind_both, crate::proofs::Appends::spaced_both, crate::proofs::Appends::spaced_behind))]
fn write_case(alloc: Global, line: &mut Text, case: &Case) -> Result<(), NoMemory>
    ensures { OnOk result (line.new ≡ line.old ++ flat_map spaced (print_case case.now)) }
{
    write_word(line, "case")?;
    write_tag(line, case.tag.text.as_str())?;
    write_case_name(line, case.name.as_ref())?;
    write_sign(line, "->")?;
    write_alone(alloc, line, &case.body)
}

/// `case x -> e`.
#[cycle(printed)]
#[tactic(auto, using(crate::proofs::Appends::behind_both, crate::proofs::Appends::spaced_both, crate::proofs::Appends::spaced_behind))]
fn write_last(alloc: Global, line: &mut Text, last: &LastCase) -> Result<(), NoMemory>
    ensures { OnOk result (line.new ≡ line.old ++ flat_map spaced (print_last last.now)) }
{
    write_word(line, "case")?;
    write_name(line, &last.name)?;
    write_sign(line, "->")?;
    write_alone(alloc, line, &last.body)
}
