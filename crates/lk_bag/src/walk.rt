//! What a query gives over tables.

ghost use Rattle.lk_ast.specs.Children.{exprs_of};
ghost use Rattle.lk_ast.specs.Tables.{rows_of};
ghost use Rattle.lk_ast.specs.declared.expression.Node.{out-Node};
ghost use Rattle.lk_bag.specs.Bag.{called, for_each, given, gives, items, value_of};
ghost use Rattle.lk_bag.specs.Change.{is_true};
ghost use Rattle.lk_bag.specs.Forms.{all_given, choice_given, form_given, operation_given};
ghost use Rattle.lk_operators.specs.Operators.{operated};
ghost use Rattle.lk_operators.specs.Values.{bool_in};
ghost use Rattle.lk_locals.specs.Names.{bind};
ghost use Rattle.std.specs.Prelude.{◌≡◌, ◌++◌, ◌∷◌, [], IfOk, OnOk};

use crate::values::{done, is_true, items_of, named, unit_value};
use lk_ast::{
    Base, Expr, List, NoMemory, Node, PartExpr, Row, TableRows, Text, Value, Word, first_statement,
    rows_value,
};
use lk_index::Index;
use lk_locals::Locals;
use std::alloc::Global;

/// How deep parts and calls may stand in one another, each of which takes a piece of the stack. The statements of a block
/// are one level together.
const ROOM: usize = 4_096;

/// What a query is over: a program with its index, and tables.
#[derive(Drop)]
struct Over<'a, 'p> {
    alloc: Global,
    index: &'a Index<'p>,
    tables: &'a [TableRows],
}

/// What an expression gives in a query over these tables, under these names. `NoMemory` where memory runs out, and where
/// parts and calls stand more than 4,096 deep in one another, since each takes a piece of the stack.
pub fn query_value<'p>(
    alloc: Global,
    index: &Index<'p>,
    tables: &[TableRows],
    e: &'p Expr,
    names: Locals<'p>,
) -> Result<Value, NoMemory>
    ensures { IfOk result (λ value. value ≡ gives index.now (rows_of tables.now) e.now names.entry) }
{
    let over = Over {
        alloc,
        index,
        tables,
    };
    value(&over, index.function_count(), ROOM, e, &names)
}

/// What an expression gives where so many calls may stand one in the other. The loop goes down the rests of a block, of
/// which there may be more than the stack has room for.
#[cycle(walk)]
#[tactic(auto, using(crate::proofs::Forms::given_by_form))]
fn value<'p>(
    over: &Over<'_, 'p>,
    calls: usize,
    room: usize,
    e: &'p Expr,
    names: &Locals<'p>,
) -> Result<Value, NoMemory>
    ensures { IfOk result (λ value. value ≡ given (rows_of over.now.tables.now) (called over.now.index.now (rows_of over.now.tables.now) calls) e.now names.now) }
{
    if room == 0 {
        return Err(NoMemory);
    }
    let mut inner = names.share()?;
    let mut rest = e;
    while let Some((name, statement, next)) = first_statement(rest) {
        if let Some(name) = name {
            let bound = value(over, calls, room - 1, statement, &inner)?;
            inner = inner.bind(over.alloc, name.text.as_str(), bound)?;
        }
        rest = next;
    }
    form(over, calls, room - 1, rest.node.get(), &inner)
}

/// What a node gives.
#[cycle(walk)]
#[inline(never)]
fn form<'p>(
    over: &Over<'_, 'p>,
    calls: usize,
    room: usize,
    node: &'p Node,
    names: &Locals<'p>,
) -> Result<Value, NoMemory>
    ensures { IfOk result (λ value. value ≡ form_given (rows_of over.now.tables.now) (called over.now.index.now (rows_of over.now.tables.now) calls) (out-Node node.now) names.now) }
{
    match node {
        Node::Name(name) => named(over.alloc, name, names),
        Node::Call(name, args) => call_on(over, calls, room, &name.text, args.as_slice(), names),
        Node::Var(name, e, rest) => variable(over, calls, room, name, e, rest, names),
        Node::Seq(_, e) | Node::Query(_, e) => value(over, calls, room, e, names),
        Node::ForList(name, e, body) | Node::ForTable(name, e, body) => {
            loop_over(over, calls, room, name, e, body, names)
        }
        Node::Table(name) => rows_value(over.alloc, rows_under(over.tables, &name.text)),
        Node::If(_, _, _) | Node::And(_, _) | Node::Or(_, _) | Node::Where(_, _) => choice(
            over, calls, room, node, names,
        ),
        node => operation(over, calls, room, node, names),
    }
}

/// A call of the function of that name: what its arguments give, and then its body.
#[cycle(walk)]
#[inline(never)]
fn call_on<'p>(
    over: &Over<'_, 'p>,
    calls: usize,
    room: usize,
    name: &Text,
    args: &'p [Expr],
    names: &Locals<'p>,
) -> Result<Value, NoMemory>
    ensures { IfOk result (λ value. value ≡ called over.now.index.now (rows_of over.now.tables.now) calls name.now (all_given (rows_of over.now.tables.now) (called over.now.index.now (rows_of over.now.tables.now) calls) args.now names.now)) }
{
    let args = values(over, calls, room, args, names)?;
    call(over, calls, room, name, args)
}

/// What the rest of a block gives under one name more.
#[cycle(walk)]
#[inline(never)]
fn variable<'p>(
    over: &Over<'_, 'p>,
    calls: usize,
    room: usize,
    name: &'p Word,
    e: &'p Expr,
    rest: &'p Expr,
    names: &Locals<'p>,
) -> Result<Value, NoMemory>
    ensures { IfOk result (λ value. value ≡ given (rows_of over.now.tables.now) (called over.now.index.now (rows_of over.now.tables.now) calls) rest.now (bind name.now.text (given (rows_of over.now.tables.now) (called over.now.index.now (rows_of over.now.tables.now) calls) e.now names.now) names.now)) }
{
    let bound = value(over, calls, room, e, names)?;
    let inner = names.share()?.bind(over.alloc, name.text.as_str(), bound)?;
    value(over, calls, room, rest, &inner)
}

/// What a loop over a list gives.
#[cycle(walk)]
#[inline(never)]
fn loop_over<'p>(
    over: &Over<'_, 'p>,
    calls: usize,
    room: usize,
    name: &'p Word,
    e: &'p Expr,
    body: &'p Expr,
    names: &Locals<'p>,
) -> Result<Value, NoMemory>
    ensures { IfOk result (λ value. value ≡ for_each name.now.text (items (given (rows_of over.now.tables.now) (called over.now.index.now (rows_of over.now.tables.now) calls) e.now names.now)) (given (rows_of over.now.tables.now) (called over.now.index.now (rows_of over.now.tables.now) calls) body.now) names.now) }
{
    let elements = value(over, calls, room, e, names)?;
    let elements = items_of(over.alloc, elements);
    for_each(over, calls, room, name, elements, body, names)
}

/// Whether a condition holds.
#[cycle(walk)]
#[inline(never)]
fn holds<'p>(
    over: &Over<'_, 'p>,
    calls: usize,
    room: usize,
    e: &'p Expr,
    names: &Locals<'p>,
) -> Result<bool, NoMemory>
    ensures { IfOk result (λ truth. truth ≡ is_true (bool_in (given (rows_of over.now.tables.now) (called over.now.index.now (rows_of over.now.tables.now) calls) e.now names.now))) }
{
    Ok(is_true(&value(over, calls, room, e, names)?))
}

/// What a choice gives.
#[cycle(walk)]
#[tactic(auto, using(crate::proofs::Forms::chosen_by))]
#[inline(never)]
fn choice<'p>(
    over: &Over<'_, 'p>,
    calls: usize,
    room: usize,
    node: &'p Node,
    names: &Locals<'p>,
) -> Result<Value, NoMemory>
    ensures { IfOk result (λ value. value ≡ choice_given (rows_of over.now.tables.now) (called over.now.index.now (rows_of over.now.tables.now) calls) (out-Node node.now) names.now) }
{
    match node {
        Node::If(c, then, other) => {
            if holds(over, calls, room, c, names)? {
                value(over, calls, room, then, names)
            } else {
                value(over, calls, room, other, names)
            }
        }
        Node::And(a, b) => {
            if holds(over, calls, room, a, names)? {
                value(over, calls, room, b, names)
            } else {
                Ok(Value::Base(Base::Bool(false)))
            }
        }
        Node::Or(a, b) => {
            if holds(over, calls, room, a, names)? {
                Ok(Value::Base(Base::Bool(true)))
            } else {
                value(over, calls, room, b, names)
            }
        }
        Node::Where(c, e) => {
            if holds(over, calls, room, c, names)? {
                value(over, calls, room, e, names)
            } else {
                Ok(Value::List(List::new(over.alloc)))
            }
        }
        node => operation(over, calls, room, node, names),
    }
}

/// What an operation gives. What has no value in a query gives the unit value.
#[cycle(walk)]
#[inline(never)]
fn operation<'p>(
    over: &Over<'_, 'p>,
    calls: usize,
    room: usize,
    node: &'p Node,
    names: &Locals<'p>,
) -> Result<Value, NoMemory>
    ensures { IfOk result (λ value. value ≡ operation_given (rows_of over.now.tables.now) (called over.now.index.now (rows_of over.now.tables.now) calls) (out-Node node.now) names.now) }
{
    match node {
        Node::Int(_) | Node::Text(_) | Node::Bool(_) => {
            done(over.alloc, node, List::new(over.alloc))
        }
        Node::Concat(a, b)
        | Node::Append(a, b)
        | Node::Cons(a, b)
        | Node::Add(a, b)
        | Node::Sub(a, b)
        | Node::Mul(a, b)
        | Node::Div(a, b)
        | Node::Mod(a, b)
        | Node::Eq(a, b)
        | Node::Ne(a, b)
        | Node::Lt(a, b)
        | Node::Le(a, b)
        | Node::Gt(a, b)
        | Node::Ge(a, b) => two_operands(over, calls, room, node, a, b, names),
        Node::Neg(e)
        | Node::Not(e)
        | Node::Hd(e)
        | Node::Tl(e)
        | Node::Empty(e)
        | Node::IntToString(e)
        | Node::Project(e, _)
        | Node::Tag(_, e) => one_operand(over, calls, room, node, e, names),
        Node::List(list) => list_of(over, calls, room, node, list.as_slice(), names),
        Node::Record(parts) => record_of(over, calls, room, node, parts.as_slice(), names),
        Node::Extend(parts, e) => extension(over, calls, room, node, parts.as_slice(), e, names),
        Node::Name(_)
        | Node::Function(_)
        | Node::Lambda(_)
        | Node::Call(_, _)
        | Node::Apply(_, _)
        | Node::Var(_, _, _)
        | Node::Seq(_, _)
        | Node::If(_, _, _)
        | Node::And(_, _)
        | Node::Or(_, _)
        | Node::Print(_)
        | Node::Switch(_, _, _)
        | Node::ForList(_, _, _)
        | Node::ForTable(_, _, _)
        | Node::Table(_)
        | Node::Where(_, _)
        | Node::Query(_, _)
        | Node::Insert(_, _)
        | Node::Update(_)
        | Node::Delete(_) => Ok(unit_value(over.alloc)),
    }
}

/// What an operation on one part gives.
#[cycle(walk)]
#[inline(never)]
fn one_operand<'p>(
    over: &Over<'_, 'p>,
    calls: usize,
    room: usize,
    node: &Node,
    e: &'p Expr,
    names: &Locals<'p>,
) -> Result<Value, NoMemory>
    ensures { IfOk result (λ value. value ≡ value_of (operated (out-Node node.now) (all_given (rows_of over.now.tables.now) (called over.now.index.now (rows_of over.now.tables.now) calls) (e.now ∷ []) names.now))) }
{
    let mut operands = List::new(over.alloc);
    operands.push(value(over, calls, room, e, names)?)?;
    done(over.alloc, node, operands)
}

/// What an operation on two parts gives.
#[cycle(walk)]
#[inline(never)]
fn two_operands<'p>(
    over: &Over<'_, 'p>,
    calls: usize,
    room: usize,
    node: &Node,
    a: &'p Expr,
    b: &'p Expr,
    names: &Locals<'p>,
) -> Result<Value, NoMemory>
    ensures { IfOk result (λ value. value ≡ value_of (operated (out-Node node.now) (all_given (rows_of over.now.tables.now) (called over.now.index.now (rows_of over.now.tables.now) calls) (a.now ∷ b.now ∷ []) names.now))) }
{
    let mut operands = List::new(over.alloc);
    operands.push(value(over, calls, room, a, names)?)?;
    operands.push(value(over, calls, room, b, names)?)?;
    done(over.alloc, node, operands)
}

/// What a list gives.
#[cycle(walk)]
#[inline(never)]
fn list_of<'p>(
    over: &Over<'_, 'p>,
    calls: usize,
    room: usize,
    node: &Node,
    list: &'p [Expr],
    names: &Locals<'p>,
) -> Result<Value, NoMemory>
    ensures { IfOk result (λ value. value ≡ value_of (operated (out-Node node.now) (all_given (rows_of over.now.tables.now) (called over.now.index.now (rows_of over.now.tables.now) calls) list.now names.now))) }
{
    let operands = values(over, calls, room, list, names)?;
    done(over.alloc, node, operands)
}

/// What a record gives.
#[cycle(walk)]
#[inline(never)]
fn record_of<'p>(
    over: &Over<'_, 'p>,
    calls: usize,
    room: usize,
    node: &Node,
    parts: &'p [PartExpr],
    names: &Locals<'p>,
) -> Result<Value, NoMemory>
    ensures { IfOk result (λ value. value ≡ value_of (operated (out-Node node.now) (all_given (rows_of over.now.tables.now) (called over.now.index.now (rows_of over.now.tables.now) calls) (exprs_of parts.now) names.now))) }
{
    let operands = part_values(over, calls, room, parts, names)?;
    done(over.alloc, node, operands)
}

/// What fields before a record give.
#[cycle(walk)]
#[inline(never)]
fn extension<'p>(
    over: &Over<'_, 'p>,
    calls: usize,
    room: usize,
    node: &Node,
    parts: &'p [PartExpr],
    e: &'p Expr,
    names: &Locals<'p>,
) -> Result<Value, NoMemory>
    ensures { IfOk result (λ value. value ≡ value_of (operated (out-Node node.now) (all_given (rows_of over.now.tables.now) (called over.now.index.now (rows_of over.now.tables.now) calls) (exprs_of parts.now ++ e.now ∷ []) names.now))) }
{
    let mut operands = part_values(over, calls, room, parts, names)?;
    operands.push(value(over, calls, room, e, names)?)?;
    done(over.alloc, node, operands)
}

/// What expressions give, each by itself.
#[cycle(walk)]
#[inline(never)]
fn values<'p>(
    over: &Over<'_, 'p>,
    calls: usize,
    room: usize,
    list: &'p [Expr],
    names: &Locals<'p>,
) -> Result<List<Value>, NoMemory>
    ensures { IfOk result (λ values. values ≡ all_given (rows_of over.now.tables.now) (called over.now.index.now (rows_of over.now.tables.now) calls) list.now names.now) }
{
    let mut found = List::new(over.alloc);
    for e in list {
        found.push(value(over, calls, room, e, names)?)?;
    }
    Ok(found)
}

/// What the expressions of `l = e, m = d` give.
#[cycle(walk)]
#[inline(never)]
fn part_values<'p>(
    over: &Over<'_, 'p>,
    calls: usize,
    room: usize,
    list: &'p [PartExpr],
    names: &Locals<'p>,
) -> Result<List<Value>, NoMemory>
    ensures { IfOk result (λ values. values ≡ all_given (rows_of over.now.tables.now) (called over.now.index.now (rows_of over.now.tables.now) calls) (exprs_of list.now) names.now) }
{
    let mut found = List::new(over.alloc);
    for part in list {
        found.push(value(over, calls, room, &part.expr, names)?)?;
    }
    Ok(found)
}

/// The lists that a body gives for each of these elements in turn, one behind the other.
#[cycle(walk)]
#[inline(never)]
fn for_each<'p>(
    over: &Over<'_, 'p>,
    calls: usize,
    room: usize,
    name: &'p Word,
    elements: List<Value>,
    body: &'p Expr,
    names: &Locals<'p>,
) -> Result<Value, NoMemory>
    ensures { IfOk result (λ value. value ≡ for_each name.now.text elements (given (rows_of over.now.tables.now) (called over.now.index.now (rows_of over.now.tables.now) calls) body.now) names.now) }
{
    let mut found = List::new(over.alloc);
    for element in elements.into_vec() {
        let inner = names
            .share()?
            .bind(over.alloc, name.text.as_str(), element)?;
        add_items(&mut found, value(over, calls, room, body, &inner)?)?;
    }
    Ok(Value::List(found))
}

/// What a call of the function of that name gives, where so many calls may stand one in the other.
#[cycle(walk)]
fn call<'p>(
    over: &Over<'_, 'p>,
    calls: usize,
    room: usize,
    name: &Text,
    args: List<Value>,
) -> Result<Value, NoMemory>
    ensures { IfOk result (λ value. value ≡ called over.now.index.now (rows_of over.now.tables.now) calls name.now args) }
{
    if calls == 0 {
        return Ok(Value::List(List::new(over.alloc)));
    }
    let Some(function) = over.index.function(name.as_str()) else {
        return Ok(Value::List(List::new(over.alloc)));
    };
    let none = Locals::new(over.alloc)?;
    match none.bind_all(over.alloc, function.params.as_slice(), args)? {
        Some(inner) => value(over, calls - 1, room, &function.body, &inner),
        None => Ok(Value::List(List::new(over.alloc))),
    }
}

/// The elements of this list too.
fn add_items(found: &mut List<Value>, value: Value) -> Result<(), NoMemory>
    ensures { OnOk result (found.new ≡ found.old ++ items value) }
{
    match value {
        Value::List(elements) => add_all(found, elements),
        _ => Ok(()),
    }
}

/// These values too.
fn add_all(found: &mut List<Value>, more: List<Value>) -> Result<(), NoMemory>
    ensures { OnOk result (found.new ≡ found.old ++ more) }
{
    for value in more.into_vec() {
        found.push(value)?;
    }
    Ok(())
}

/// The rows of the first table of that name, and none where there is no such table.
pub fn rows_under<'a>(tables: &'a [TableRows], name: &Text) -> &'a [Row]
    ensures { result.now ≡ rows_of tables.now name.now }
{
    let mut left = tables;
    while let [table, others @ ..] = left {
        if name.equals(&table.name) {
            return table.rows.as_slice();
        }
        left = others;
    }
    &[]
}
