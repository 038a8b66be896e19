//! The walk through expressions.

ghost use Rattle.lk_ast.specs.declared.expression.Node.{out-Node};
ghost use Rattle.lk_types.specs.declared.ty.Ty.TheVariants as ty;
ghost use Rattle.lk_typing.specs.Typing.{expr_of};
ghost use Rattle.lk_typing.specs.Walk.{for_list_walked, for_table_walked, lambda_walked, query_walked, switch_walked, var_walked};
ghost use Rattle.lk_equations.specs.Made.{as_own};
ghost use Rattle.lk_walk.specs.Went.{went, went_all, type_at, types_all, under_names, case_in, case_went, case_field, case_type, cases_went, cases_fields, cases_types, last_in, last_went, last_tail, last_types, change_walked, walk_in, part_walks, plain_in, Inner};
ghost use Rattle.std.specs.Option.{option_map};
ghost use Rattle.std.specs.Prelude.{◌≡◌, [], ◌∷◌, ◌++◌, map, IfOk, OnOk};

use crate::block::{begin, end_all};
use crate::context::Context;
use crate::walker::Walker;
use lk_ast::{
    Case, ChangeExpr, Expr, LambdaExpr, LastCase, List, NoMemory, Node, PartExpr, SortKey, Span,
    Word, first_statement,
};
use lk_equations::{
    Own, any_effects, change_own, effect_before, elements_are, for_own, has_if, is_marked,
    lambda_own, never, no_effects, one, one_type, only, own_of, query_own, row_of, switch_own,
    unit, variant_of,
};
use lk_types::{Effect, RowTail, Ty, TyField};
use std::alloc::Global;

/// Walks through an expression. The answer is the number of the variable for its type. The loop goes down the rests of a
/// block, of which there may be more than the stack has room for.
#[cycle(walks)]
pub fn expr<'p>(
    alloc: Global,
    context: &Context,
    walker: &mut Walker<'p>,
    e: &'p Expr,
) -> Result<u32, NoMemory>
    ensures walked { OnOk result (walker.new ≡ went (walk_in context.now.globals.now e.now) context.now.effects.now walker.old) }
    ensures number { IfOk result (λ number. ty.Var number ≡ type_at (walk_in context.now.globals.now e.now) context.now.effects.now walker.old) }
{
    let mut blocks = List::new(alloc);
    let mut rest = e;
    while let Some((name, statement, next)) = first_statement(rest) {
        let slot = walker.enter()?;
        let first = expr(alloc, context, walker, statement)?;
        blocks.push(begin(walker, rest.span, slot, name, first)?)?;
        rest = next;
    }
    let slot = walker.enter()?;
    let own = node(alloc, context, walker, rest)?;
    let number = walker.leave(alloc, rest.span, slot, own)?;
    end_all(alloc, walker, blocks, number)
}

/// Walks through what an expression is.
#[cycle(walks)]
fn node<'p>(
    alloc: Global,
    context: &Context,
    walker: &mut Walker<'p>,
    e: &'p Expr,
) -> Result<Own, NoMemory>
    ensures { IfOk result (λ own. Inner e.now.span (walk_in context.now.globals.now e.now walker.old.names context.now.effects.now walker.old.next) walker.old walker.new (as_own own)) }
{
    let at = e.span;
    match e.node.get() {
        Node::Lambda(function) => lambda(alloc, context, walker, function, at),
        Node::Var(name, first, rest) => variable(alloc, context, walker, name, first, rest, at),
        Node::Switch(value, list, last) => {
            switch(alloc, context, walker, last, value, list.as_slice(), at)
        }
        Node::ForList(name, list, body) => for_list(alloc, context, walker, name, list, body, at),
        Node::ForTable(name, table, body) => {
            for_table(alloc, context, walker, name, table, body, at)
        }
        Node::Query(keys, body) => query(alloc, context, walker, body, keys.as_slice(), at),
        Node::Update(rows) | Node::Delete(rows) => change(alloc, context, walker, rows, at),
        _ => plain(alloc, context, walker, e),
    }
}

/// Walks through `var x = e; rest`.
#[cycle(walks)]
fn variable<'p>(
    alloc: Global,
    context: &Context,
    walker: &mut Walker<'p>,
    name: &'p Word,
    first: &'p Expr,
    rest: &'p Expr,
    at: Span,
) -> Result<Own, NoMemory>
    ensures { IfOk result (λ own. Inner at (var_walked at name.now.text (walk_in context.now.globals.now first.now) (walk_in context.now.globals.now rest.now) walker.old.names context.now.effects.now walker.old.next) walker.old walker.new (as_own own)) }
{
    let first = expr(alloc, context, walker, first)?;
    let rest = under(alloc, context, walker, rest, name, Ty::Var(first))?;
    Ok(only(alloc, Ty::Var(rest), walker.next))
}

/// Walks through a switch with this last case, if there is one.
#[cycle(walks)]
fn switch<'p>(
    alloc: Global,
    context: &Context,
    walker: &mut Walker<'p>,
    last: &'p Option<LastCase>,
    value: &'p Expr,
    list: &'p [Case],
    at: Span,
) -> Result<Own, NoMemory>
    ensures { IfOk result (λ own. Inner at (switch_walked at (walk_in context.now.globals.now value.now) (map (case_in context.now.globals.now) list.now) (option_map (last_in context.now.globals.now) last.now) walker.old.names context.now.effects.now walker.old.next) walker.old walker.new (as_own own)) }
{
    let mut tags = List::new(alloc);
    let mut types = List::new(alloc);
    let value = expr(alloc, context, walker, value)?;
    cases(alloc, context, walker, list, &mut tags, &mut types)?;
    let tail = last_case(alloc, context, walker, last, &mut types)?;
    let bodies = one_type(alloc, types.as_slice(), walker.next)?;
    let variant = variant_of(tags, tail);
    switch_own(alloc, context.effects, value, variant, bodies)
}

/// Walks through `for (x <- e) d`.
#[cycle(walks)]
fn for_list<'p>(
    alloc: Global,
    context: &Context,
    walker: &mut Walker<'p>,
    name: &'p Word,
    list: &'p Expr,
    body: &'p Expr,
    at: Span,
) -> Result<Own, NoMemory>
    ensures { IfOk result (λ own. Inner at (for_list_walked at name.now.text (walk_in context.now.globals.now list.now) (walk_in context.now.globals.now body.now) walker.old.names context.now.effects.now walker.old.next) walker.old walker.new (as_own own)) }
{
    let element = walker.number()?;
    let list = expr(alloc, context, walker, list)?;
    let body = under(alloc, context, walker, body, name, Ty::Var(element))?;
    let elements = one(alloc, elements_are(alloc, list, element)?)?;
    for_own(alloc, elements, body, walker.next)
}

/// Walks through `for (x <-- t) d`.
#[cycle(walks)]
fn for_table<'p>(
    alloc: Global,
    context: &Context,
    walker: &mut Walker<'p>,
    name: &'p Word,
    table: &'p Expr,
    body: &'p Expr,
    at: Span,
) -> Result<Own, NoMemory>
    ensures { IfOk result (λ own. Inner at (for_table_walked at name.now.text (walk_in context.now.globals.now table.now) (walk_in context.now.globals.now body.now) walker.old.names context.now.effects.now walker.old.next) walker.old walker.new (as_own own)) }
{
    let element = walker.number()?;
    let table = expr(alloc, context, walker, table)?;
    let elements = one(alloc, elements_are(alloc, table, element)?)?;
    walker.say(at, elements)?;
    let body = under(alloc, context, walker, body, name, Ty::Var(element))?;
    for_own(alloc, List::new(alloc), body, walker.next)
}

/// Walks through an expression under one more name of that type.
#[cycle(walks)]
fn under<'p>(
    alloc: Global,
    context: &Context,
    walker: &mut Walker<'p>,
    e: &'p Expr,
    name: &'p Word,
    bound: Ty,
) -> Result<u32, NoMemory>
    ensures walked { OnOk result (walker.new ≡ went (under_names ((name.now.text, bound) ∷ []) (walk_in context.now.globals.now e.now)) context.now.effects.now walker.old) }
    ensures number { IfOk result (λ number. ty.Var number ≡ type_at (under_names ((name.now.text, bound) ∷ []) (walk_in context.now.globals.now e.now)) context.now.effects.now walker.old) }
{
    walker.names.push(name.text.as_str(), bound)?;
    let number = expr(alloc, context, walker, e)?;
    walker.names.pop();
    Ok(number)
}

/// Walks through a lambda.
#[cycle(walks)]
fn lambda<'p>(
    alloc: Global,
    context: &Context,
    walker: &mut Walker<'p>,
    e: &'p LambdaExpr,
    at: Span,
) -> Result<Own, NoMemory>
    ensures { IfOk result (λ own. Inner at (lambda_walked at e.now.params e.now.place (walk_in context.now.globals.now e.now.body) walker.old.names context.now.effects.now walker.old.next) walker.old walker.new (as_own own)) }
{
    let effects = any_effects(alloc, walker.number()?);
    let params = walker.bind_all(alloc, e.params.as_slice())?;
    let marked = has_if(
        alloc,
        is_marked(e.place),
        &effects,
        Effect::Move,
        walker.next,
    )?;
    walker.tell(at, marked)?;
    let inner = Context {
        globals: context.globals,
        effects: &effects,
    };
    let body = expr(alloc, &inner, walker, &e.body)?;
    walker.unbind(e.params.len());
    lambda_own(alloc, context.effects, params, effects, body, walker.next)
}

/// Walks through a query of this, with keys.
#[cycle(walks)]
fn query<'p>(
    alloc: Global,
    context: &Context,
    walker: &mut Walker<'p>,
    body: &'p Expr,
    keys: &[SortKey],
    at: Span,
) -> Result<Own, NoMemory>
    ensures { IfOk result (λ own. Inner at (query_walked at keys.now (walk_in context.now.globals.now body.now) walker.old.names context.now.effects.now walker.old.next) walker.old walker.new (as_own own)) }
{
    let effects = effect_before(alloc, Effect::Scan, RowTail::Closed)?;
    let inner = Context {
        globals: context.globals,
        effects: &effects,
    };
    let body = expr(alloc, &inner, walker, body)?;
    query_own(alloc, context.effects, keys, body, walker.next)
}

/// Walks through a case, and notes its tag and the type of its body.
#[cycle(walks)]
fn case<'p>(
    alloc: Global,
    context: &Context,
    walker: &mut Walker<'p>,
    case: &'p Case,
    tags: &mut List<TyField>,
    types: &mut List<Ty>,
) -> Result<(), NoMemory>
    ensures walked { OnOk result (walker.new ≡ case_went (case_in context.now.globals.now case.now) context.now.effects.now walker.old) }
    ensures tags { OnOk result (tags.new ≡ tags.old ++ case_field (case_in context.now.globals.now case.now) walker.old ∷ []) }
    ensures types { OnOk result (types.new ≡ types.old ++ case_type (case_in context.now.globals.now case.now) context.now.effects.now walker.old ∷ []) }
{
    let label = case.tag.text.copy(alloc)?;
    match &case.name {
        None => {
            let ty = unit(alloc);
            let body = expr(alloc, context, walker, &case.body)?;
            tags.push(TyField { label, ty })?;
            types.push(Ty::Var(body))
        }
        Some(name) => {
            let held = walker.number()?;
            let body = under(alloc, context, walker, &case.body, name, Ty::Var(held))?;
            let ty = Ty::Var(held);
            tags.push(TyField { label, ty })?;
            types.push(Ty::Var(body))
        }
    }
}

/// Walks through the cases of a switch but for the last one.
#[cycle(walks)]
fn cases<'p>(
    alloc: Global,
    context: &Context,
    walker: &mut Walker<'p>,
    list: &'p [Case],
    tags: &mut List<TyField>,
    types: &mut List<Ty>,
) -> Result<(), NoMemory>
    ensures walked { OnOk result (walker.new ≡ cases_went (map (case_in context.now.globals.now) list.now) context.now.effects.now walker.old) }
    ensures tags { OnOk result (tags.new ≡ cases_fields (map (case_in context.now.globals.now) list.now) context.now.effects.now walker.old tags.old) }
    ensures types { OnOk result (types.new ≡ cases_types (map (case_in context.now.globals.now) list.now) context.now.effects.now walker.old types.old) }
{
    for one in list {
        case(alloc, context, walker, one, tags, types)?;
    }
    Ok(())
}

/// Walks through a last case, and notes the type of its body. The answer is where the tags of the cases end.
#[cycle(walks)]
fn last_case<'p>(
    alloc: Global,
    context: &Context,
    walker: &mut Walker<'p>,
    last: &'p Option<LastCase>,
    types: &mut List<Ty>,
) -> Result<RowTail, NoMemory>
    ensures walked { OnOk result (walker.new ≡ last_went (option_map (last_in context.now.globals.now) last.now) context.now.effects.now walker.old) }
    ensures tail { IfOk result (λ tail. tail ≡ last_tail (option_map (last_in context.now.globals.now) last.now) walker.old) }
    ensures types { OnOk result (types.new ≡ last_types (option_map (last_in context.now.globals.now) last.now) context.now.effects.now walker.old types.old) }
{
    match last {
        None => Ok(RowTail::Closed),
        Some(last) => {
            let tail = RowTail::Var(walker.number()?);
            let others = variant_of(List::new(alloc), tail);
            let body = under(alloc, context, walker, &last.body, &last.name, others)?;
            types.push(Ty::Var(body))?;
            Ok(tail)
        }
    }
}

/// Walks through an update or a deletion.
#[cycle(walks)]
fn change<'p>(
    alloc: Global,
    context: &Context,
    walker: &mut Walker<'p>,
    rows: &'p ChangeExpr,
    at: Span,
) -> Result<Own, NoMemory>
    ensures { IfOk result (λ own. Inner at (change_walked at context.now.globals.now rows.now walker.old.names context.now.effects.now walker.old.next) walker.old walker.new (as_own own)) }
{
    let Some(table) = context.globals.tables.get(alloc, rows.table.text.as_str())? else {
        return never(alloc, walker.next);
    };
    let effects = no_effects(alloc);
    let inner = Context {
        globals: context.globals,
        effects: &effects,
    };
    let sets = rows.sets.as_slice();
    let mut types = List::new(alloc);
    walker
        .names
        .push(rows.name.text.as_str(), row_of(alloc, table)?)?;
    let cond = expr(alloc, &inner, walker, &rows.cond)?;
    fields_in(alloc, &inner, walker, sets, &mut types)?;
    walker.names.pop();
    change_own(
        alloc,
        context.effects,
        table,
        cond,
        sets,
        types.as_slice(),
        walker.next,
    )
}

/// Walks through an expression that binds no name.
#[cycle(walks)]
fn plain<'p>(
    alloc: Global,
    context: &Context,
    walker: &mut Walker<'p>,
    e: &'p Expr,
) -> Result<Own, NoMemory>
    ensures { IfOk result (λ own. Inner e.now.span (plain_in context.now.globals.now e.now walker.old.names context.now.effects.now walker.old.next) walker.old walker.new (as_own own)) }
{
    let node = e.node.get();
    let mut types = List::new(alloc);
    parts(alloc, context, walker, node, &mut types)?;
    own_of(
        alloc,
        context.globals,
        &walker.names,
        context.effects,
        node,
        types,
        walker.next,
    )
}

/// Walks through the parts of what binds no name, and notes their types.
#[cycle(walks)]
fn parts<'p>(
    alloc: Global,
    context: &Context,
    walker: &mut Walker<'p>,
    node: &'p Node,
    types: &mut List<Ty>,
) -> Result<(), NoMemory>
    ensures walked { OnOk result (walker.new ≡ went_all (part_walks context.now.globals.now (out-Node node.now)) context.now.effects.now walker.old) }
    ensures types { OnOk result (types.new ≡ types_all (part_walks context.now.globals.now (out-Node node.now)) context.now.effects.now walker.old types.old) }
{
    match node {
        Node::Int(_)
        | Node::Text(_)
        | Node::Bool(_)
        | Node::Name(_)
        | Node::Function(_)
        | Node::Table(_)
        | Node::Lambda(_)
        | Node::Var(_, _, _)
        | Node::Switch(_, _, _)
        | Node::ForList(_, _, _)
        | Node::ForTable(_, _, _)
        | Node::Query(_, _)
        | Node::Update(_)
        | Node::Delete(_) => Ok(()),
        Node::Call(_, list) | Node::List(list) => {
            exprs(alloc, context, walker, list.as_slice(), types)
        }
        Node::Apply(f, args) => {
            part(alloc, context, walker, f, types)?;
            exprs(alloc, context, walker, args.as_slice(), types)
        }
        Node::Seq(a, b)
        | Node::And(a, b)
        | Node::Or(a, b)
        | Node::Concat(a, b)
        | Node::Append(a, b)
        | Node::Cons(a, b)
        | Node::Add(a, b)
        | Node::Sub(a, b)
        | Node::Mul(a, b)
        | Node::Div(a, b)
        | Node::Mod(a, b)
        | Node::Eq(a, b)
        | Node::Ne(a, b)
        | Node::Lt(a, b)
        | Node::Le(a, b)
        | Node::Gt(a, b)
        | Node::Ge(a, b)
        | Node::Where(a, b) => {
            part(alloc, context, walker, a, types)?;
            part(alloc, context, walker, b, types)
        }
        Node::Neg(e)
        | Node::Not(e)
        | Node::Hd(e)
        | Node::Tl(e)
        | Node::Empty(e)
        | Node::IntToString(e)
        | Node::Print(e)
        | Node::Project(e, _)
        | Node::Tag(_, e)
        | Node::Insert(_, e) => part(alloc, context, walker, e, types),
        Node::If(c, d, e) => {
            part(alloc, context, walker, c, types)?;
            part(alloc, context, walker, d, types)?;
            part(alloc, context, walker, e, types)
        }
        Node::Record(fields) => fields_in(alloc, context, walker, fields.as_slice(), types),
        Node::Extend(fields, e) => {
            fields_in(alloc, context, walker, fields.as_slice(), types)?;
            part(alloc, context, walker, e, types)
        }
    }
}

/// Walks through a part, and notes its type.
#[cycle(walks)]
fn part<'p>(
    alloc: Global,
    context: &Context,
    walker: &mut Walker<'p>,
    e: &'p Expr,
    types: &mut List<Ty>,
) -> Result<(), NoMemory>
    ensures walked { OnOk result (walker.new ≡ went (walk_in context.now.globals.now e.now) context.now.effects.now walker.old) }
    ensures types { OnOk result (types.new ≡ types.old ++ type_at (walk_in context.now.globals.now e.now) context.now.effects.now walker.old ∷ []) }
{
    let number = expr(alloc, context, walker, e)?;
    types.push(Ty::Var(number))
}

/// Walks through expressions, and notes their types.
#[cycle(walks)]
fn exprs<'p>(
    alloc: Global,
    context: &Context,
    walker: &mut Walker<'p>,
    list: &'p [Expr],
    types: &mut List<Ty>,
) -> Result<(), NoMemory>
    ensures walked { OnOk result (walker.new ≡ went_all (map (walk_in context.now.globals.now) list.now) context.now.effects.now walker.old) }
    ensures types { OnOk result (types.new ≡ types_all (map (walk_in context.now.globals.now) list.now) context.now.effects.now walker.old types.old) }
{
    for e in list {
        part(alloc, context, walker, e, types)?;
    }
    Ok(())
}

/// Walks through the expressions of `l = e, m = d`, and notes their types.
#[cycle(walks)]
fn fields_in<'p>(
    alloc: Global,
    context: &Context,
    walker: &mut Walker<'p>,
    list: &'p [PartExpr],
    types: &mut List<Ty>,
) -> Result<(), NoMemory>
    ensures walked { OnOk result (walker.new ≡ went_all (map (walk_in context.now.globals.now) (map expr_of list.now)) context.now.effects.now walker.old) }
    ensures types { OnOk result (types.new ≡ types_all (map (walk_in context.now.globals.now) (map expr_of list.now)) context.now.effects.now walker.old types.old) }
{
    for field in list {
        part(alloc, context, walker, &field.expr, types)?;
    }
    Ok(())
}
