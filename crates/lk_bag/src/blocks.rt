//! The queries, readings of tables and changes in a program's text, by the places where they begin.

ghost use Rattle.lk_ast.specs.Children.{in_some};
ghost use Rattle.lk_ast.specs.declared.expression.Node.{out-Node};
ghost use Rattle.lk_bag.specs.Blocks.{acts_on_tables, block_at, blocks_in, blocks_of};
ghost use Rattle.lk_bag.specs.Inside.{FindsBlocks, in_case, in_change, in_function, in_lambda, in_last, in_part, inside, itself, shown};
ghost use Rattle.lk_index.specs.Places.{shown as functions_shown};
ghost use Rattle.std.specs.List.{flat_map};
ghost use Rattle.std.specs.Option.{option_copied};
ghost use Rattle.std.specs.Prelude.{◌≡◌, ◌++◌, IfOk, OnOk};

use lk_ast::{
    Case, ChangeExpr, Expr, FunDef, LambdaExpr, LastCase, List, NoMemory, Node, PartExpr, Program,
    first_statement, functions_of,
};
use std::alloc::Global;
use std::collections::BTreeMap;
use std::marker::Model;

/// The blocks of a program that act on tables, by the places where they begin. Contracts see the program that they are of.
#[derive(Drop)]
pub struct Blocks<'p> {
    program: &'p Program,
    placed: BTreeMap<u32, &'p Expr>,
}

impl<'p> Model for Blocks<'p> {
    ghost use Rattle.lk_ast.specs.contracts.expression.Expr as e;
    ghost use Rattle.lk_ast.specs.contracts.signature.SigType as ty;
    ghost use Rattle.lk_ast.specs.declared.declaration.Program.{Program as TheProgram};
    ghost use Rattle.lk_bag.specs.Blocks.{blocks_of};
    ghost use Rattle.lk_bag.specs.Inside.{FindsBlocks};
    ghost use Rattle.std.specs.Coded.{codes};

    ghost Value = { TheProgram };

    ghost coded = { Prim.hlevel (codes, e.the_row.coded, ty.the_row.coded) };

    ghost view = { λ blocks. blocks.program.now };

    ghost invariant = { λ blocks. FindsBlocks blocks.placed (blocks_of blocks.program.now) };
}

impl<'p> Blocks<'p> {
    /// The blocks of a program. `NoMemory` where memory runs out.
    pub fn new(alloc: Global, program: &'p Program) -> Result<Blocks<'p>, NoMemory>
        ensures { IfOk result (λ blocks. blocks ≡ program.now) }
    {
        let functions = functions_of(alloc, program)?;
        let found = in_functions(alloc, functions.as_slice())?;
        let placed = by_place(alloc, found.as_slice())?;
        Ok(Blocks { program, placed })
    }

    /// The first block that begins at this place.
    pub fn at(&self, site: u32) -> Option<&'p Expr>
        ensures { option_copied result ≡ block_at self.now site }
    {
        self.placed.get(&site).copied()
    }
}

/// The blocks by the places where they begin, the first where a place comes twice.
fn by_place<'p>(alloc: Global, blocks: &[&'p Expr]) -> Result<BTreeMap<u32, &'p Expr>, NoMemory>
    ensures { IfOk result (λ map. FindsBlocks map (shown blocks.now)) }
{
    let mut map = BTreeMap::new(alloc);
    for i in (0..blocks.len()).rev() {
        let block = blocks[i];
        map.insert(block.span.start, block)?;
    }
    Ok(map)
}

/// The blocks in the bodies of functions, in text order.
fn in_functions<'p>(alloc: Global, functions: &[&'p FunDef]) -> Result<List<&'p Expr>, NoMemory>
    ensures { IfOk result (λ found. shown found ≡ flat_map in_function (functions_shown functions.now)) }
{
    let mut found = List::new(alloc);
    for function in functions {
        expr(&mut found, &function.body)?;
    }
    Ok(found)
}

/// The blocks in an expression. The loop goes down the rests of a block of statements, of which there may be more than the
/// stack has room for.
#[cycle(blocks)]
#[tactic(auto, using(crate::proofs::Within::before_level, crate::proofs::Within::block_level))]
fn expr<'p>(found: &mut List<&'p Expr>, e: &'p Expr) -> Result<(), NoMemory>
    ensures { OnOk result (shown found.new ≡ shown found.old ++ blocks_in e.now) }
{
    let mut rest = e;
    while let Some((_name, statement, next)) = first_statement(rest) {
        expr(found, statement)?;
        rest = next;
    }
    add(found, rest)?;
    node(found, rest.node.get())
}

/// The expression, if it acts on tables itself.
fn add<'p>(found: &mut List<&'p Expr>, e: &'p Expr) -> Result<(), NoMemory>
    ensures { OnOk result (shown found.new ≡ shown found.old ++ itself (acts_on_tables (out-Node e.now.node)) e.now) }
{
    if acts_on_tables(e.node.get()) {
        found.push(e)
    } else {
        Ok(())
    }
}

/// Whether a node reads or changes tables.
fn acts_on_tables(node: &Node) -> bool
    ensures { result ≡ acts_on_tables (out-Node node.now) }
{
    match node {
        Node::Table(_)
        | Node::Query(_, _)
        | Node::Insert(_, _)
        | Node::Update(_)
        | Node::Delete(_) => true,
        _ => false,
    }
}

/// The blocks inside a node.
#[cycle(blocks)]
fn node<'p>(found: &mut List<&'p Expr>, node: &'p Node) -> Result<(), NoMemory>
    ensures { OnOk result (shown found.new ≡ shown found.old ++ inside (out-Node node.now)) }
{
    match node {
        Node::Int(_)
        | Node::Text(_)
        | Node::Bool(_)
        | Node::Name(_)
        | Node::Function(_)
        | Node::Table(_) => Ok(()),
        Node::Lambda(e) => lambda(found, e),
        Node::Call(_, list) | Node::List(list) => exprs(found, list.as_slice()),
        Node::Apply(f, args) => {
            expr(found, f)?;
            exprs(found, args.as_slice())
        }
        Node::Seq(a, b)
        | Node::And(a, b)
        | Node::Or(a, b)
        | Node::Concat(a, b)
        | Node::Append(a, b)
        | Node::Cons(a, b)
        | Node::Add(a, b)
        | Node::Sub(a, b)
        | Node::Mul(a, b)
        | Node::Div(a, b)
        | Node::Mod(a, b)
        | Node::Eq(a, b)
        | Node::Ne(a, b)
        | Node::Lt(a, b)
        | Node::Le(a, b)
        | Node::Gt(a, b)
        | Node::Ge(a, b)
        | Node::Where(a, b)
        | Node::Var(_, a, b)
        | Node::ForList(_, a, b)
        | Node::ForTable(_, a, b) => {
            expr(found, a)?;
            expr(found, b)
        }
        Node::Neg(e)
        | Node::Not(e)
        | Node::Hd(e)
        | Node::Tl(e)
        | Node::Empty(e)
        | Node::IntToString(e)
        | Node::Print(e)
        | Node::Project(e, _)
        | Node::Tag(_, e)
        | Node::Query(_, e)
        | Node::Insert(_, e) => expr(found, e),
        Node::If(c, d, e) => {
            expr(found, c)?;
            expr(found, d)?;
            expr(found, e)
        }
        Node::Record(fields) => parts(found, fields.as_slice()),
        Node::Extend(fields, e) => {
            parts(found, fields.as_slice())?;
            expr(found, e)
        }
        Node::Switch(e, list, last) => {
            expr(found, e)?;
            cases(found, list.as_slice())?;
            last_case(found, last)
        }
        Node::Update(rows) | Node::Delete(rows) => change(found, rows),
    }
}

/// The blocks in expressions.
#[cycle(blocks)]
fn exprs<'p>(found: &mut List<&'p Expr>, list: &'p [Expr]) -> Result<(), NoMemory>
    ensures { OnOk result (shown found.new ≡ shown found.old ++ flat_map blocks_in list.now) }
{
    for e in list {
        expr(found, e)?;
    }
    Ok(())
}

/// The blocks in `l = e, m = d`.
#[cycle(blocks)]
fn parts<'p>(found: &mut List<&'p Expr>, list: &'p [PartExpr]) -> Result<(), NoMemory>
    ensures { OnOk result (shown found.new ≡ shown found.old ++ flat_map in_part list.now) }
{
    for part in list {
        expr(found, &part.expr)?;
    }
    Ok(())
}

/// The blocks in `fun (x) { e }`.
#[cycle(blocks)]
fn lambda<'p>(found: &mut List<&'p Expr>, lambda: &'p LambdaExpr) -> Result<(), NoMemory>
    ensures { OnOk result (shown found.new ≡ shown found.old ++ in_lambda lambda.now) }
{
    expr(found, &lambda.body)
}

/// The blocks in the cases of a switch but for the last one.
#[cycle(blocks)]
fn cases<'p>(found: &mut List<&'p Expr>, list: &'p [Case]) -> Result<(), NoMemory>
    ensures { OnOk result (shown found.new ≡ shown found.old ++ flat_map in_case list.now) }
{
    for case in list {
        expr(found, &case.body)?;
    }
    Ok(())
}

/// The blocks in `case x -> e`.
#[cycle(blocks)]
fn last_case<'p>(found: &mut List<&'p Expr>, last: &'p Option<LastCase>) -> Result<(), NoMemory>
    ensures { OnOk result (shown found.new ≡ shown found.old ++ in_some in_last last.now) }
{
    match last {
        None => Ok(()),
        Some(last) => expr(found, &last.body),
    }
}

/// The blocks in `(x <-- t) where (c) set (l = e)`.
#[cycle(blocks)]
fn change<'p>(found: &mut List<&'p Expr>, rows: &'p ChangeExpr) -> Result<(), NoMemory>
    ensures { OnOk result (shown found.new ≡ shown found.old ++ in_change rows.now) }
{
    expr(found, &rows.cond)?;
    parts(found, rows.sets.as_slice())
}
