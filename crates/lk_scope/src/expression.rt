//! Expressions under the names in scope.

ghost use Rattle.lk_scope.specs.Names.{bind, bind_all};
ghost use Rattle.lk_scope.specs.Scoped.{all_in, call_node, function_in, scoped, scoped_case, scoped_change, scoped_lambda, scoped_last, scoped_node, scoped_part, word_node};
ghost use Rattle.lk_ast.specs.declared.expression.Node.{out-Node};
ghost use Rattle.std.specs.Prelude.{◌≡◌, IfOk, OnOk, map};
ghost use Rattle.std.specs.Option.{option_map};

use crate::names::Names;
use lk_ast::{
    Boxed, Case, ChangeExpr, Expr, LambdaExpr, LastCase, List, NoMemory, Node, PartExpr, Statement,
    Text, Word, copy_keys, copy_some, copy_word, copy_words, first_statement, make_chain,
    with_operand, with_operands,
};
use std::alloc::Global;

/// What was made, or an end with the error. At forty places in one function it is proved in less time than `?`.
macro_rules! got {
    ($made:expr) => {
        match $made {
            Ok(made) => made,
            Err(error) => return Err(error),
        }
    };
}

/// An expression. The loop goes down the rests of a block, of which there may be more than the stack has room for.
#[cycle(scoped)]
pub fn expr(alloc: Global, names: &mut Names, e: &Expr) -> Result<Expr, NoMemory>
    ensures scoped { IfOk result (λ made. made ≡ scoped e.now names.old) }
    ensures left { OnOk result (names.new ≡ names.old) }
{
    let mut noted = List::new(alloc);
    let mut statements = List::new(alloc);
    let mut rest = e;
    while let Some((name, statement, next)) = first_statement(rest) {
        let statement = expr(alloc, names, statement)?;
        names.enter_some(alloc, &mut noted, name)?;
        statements.push(Statement {
            span: rest.span,
            name: copy_some(alloc, name)?,
            expr: statement,
        })?;
        rest = next;
    }
    let span = rest.span;
    let node = node(alloc, names, rest.node.get())?;
    let node = Boxed::new(alloc, node)?;
    names.leave(noted);
    make_chain(alloc, statements, Expr { span, node })
}

/// A word: a local name or a function of the program.
fn word_node(alloc: Global, names: &Names, name: &Text) -> Result<Node, NoMemory>
    ensures { IfOk result (λ made. made ≡ word_node names.now name.now) }
{
    let copy = name.copy(alloc)?;
    if names.has(name.as_str()) {
        Ok(Node::Name(copy))
    } else {
        Ok(Node::Function(copy))
    }
}

/// The function of the program that an expression is the name of.
fn function_in(alloc: Global, e: &Expr) -> Result<Option<Text>, NoMemory>
    ensures { IfOk result (λ name. name ≡ function_in (out-Node e.now.node)) }
{
    match e.node.get() {
        Node::Function(name) => name.copy(alloc).map(Some),
        _ => Ok(None),
    }
}

/// A call of a function of the program, or of a value.
fn call_node(alloc: Global, f: Expr, args: List<Expr>) -> Result<Node, NoMemory>
    ensures { IfOk result (λ made. made ≡ call_node f args) }
{
    match function_in(alloc, &f)? {
        Some(text) => Ok(Node::Call(Word { at: f.span, text }, args)),
        None => Ok(Node::Apply(f, args)),
    }
}

/// What an expression is.
#[cycle(scoped)]
fn node(alloc: Global, names: &mut Names, node: &Node) -> Result<Node, NoMemory>
    ensures scoped { IfOk result (λ made. made ≡ scoped_node node.now names.old) }
    ensures left { OnOk result (names.new ≡ names.old) }
{
    match node {
        Node::Int(number) => Ok(Node::Int(*number)),
        Node::Text(text) => text.copy(alloc).map(Node::Text),
        Node::Bool(truth) => Ok(Node::Bool(*truth)),
        Node::Name(name) => word_node(alloc, names, name),
        Node::Function(name) => name.copy(alloc).map(Node::Function),
        Node::Lambda(e) => lambda(alloc, names, e).map(Node::Lambda),
        Node::Call(name, args) => {
            let name = got!(copy_word(alloc, name));
            Ok(Node::Call(name, got!(exprs(alloc, names, args.as_slice()))))
        }
        Node::Apply(f, args) => {
            let f = got!(expr(alloc, names, f));
            let args = got!(exprs(alloc, names, args.as_slice()));
            call_node(alloc, f, args)
        }
        Node::Var(name, bound, rest) => {
            let bound = got!(expr(alloc, names, bound));
            let rest = got!(under(alloc, names, name, rest));
            Ok(Node::Var(got!(copy_word(alloc, name)), bound, rest))
        }
        Node::Seq(a, b)
        | Node::And(a, b)
        | Node::Or(a, b)
        | Node::Concat(a, b)
        | Node::Append(a, b)
        | Node::Cons(a, b)
        | Node::Add(a, b)
        | Node::Sub(a, b)
        | Node::Mul(a, b)
        | Node::Div(a, b)
        | Node::Mod(a, b)
        | Node::Eq(a, b)
        | Node::Ne(a, b)
        | Node::Lt(a, b)
        | Node::Le(a, b)
        | Node::Gt(a, b)
        | Node::Ge(a, b)
        | Node::Where(a, b) => {
            let a = got!(expr(alloc, names, a));
            let b = got!(expr(alloc, names, b));
            Ok(with_operands(node, a, b))
        }
        Node::Neg(e)
        | Node::Not(e)
        | Node::Hd(e)
        | Node::Tl(e)
        | Node::Empty(e)
        | Node::IntToString(e)
        | Node::Print(e) => Ok(with_operand(node, got!(expr(alloc, names, e)))),
        Node::If(c, d, e) => {
            let c = got!(expr(alloc, names, c));
            let d = got!(expr(alloc, names, d));
            Ok(Node::If(c, d, got!(expr(alloc, names, e))))
        }
        Node::Record(fields) => parts(alloc, names, fields.as_slice()).map(Node::Record),
        Node::Extend(fields, e) => {
            let fields = got!(parts(alloc, names, fields.as_slice()));
            Ok(Node::Extend(fields, got!(expr(alloc, names, e))))
        }
        Node::List(items) => exprs(alloc, names, items.as_slice()).map(Node::List),
        Node::Project(e, label) => {
            let e = got!(expr(alloc, names, e));
            Ok(Node::Project(e, got!(copy_word(alloc, label))))
        }
        Node::Tag(tag, e) => {
            let tag = got!(copy_word(alloc, tag));
            Ok(Node::Tag(tag, got!(expr(alloc, names, e))))
        }
        Node::Switch(e, list, last) => {
            let e = got!(expr(alloc, names, e));
            let list = got!(cases(alloc, names, list.as_slice()));
            Ok(Node::Switch(e, list, got!(last_case(alloc, names, last))))
        }
        Node::ForList(name, e, body) => {
            let e = got!(expr(alloc, names, e));
            let body = got!(under(alloc, names, name, body));
            Ok(Node::ForList(got!(copy_word(alloc, name)), e, body))
        }
        Node::ForTable(name, rows, body) => {
            let rows = got!(expr(alloc, names, rows));
            let body = got!(under(alloc, names, name, body));
            Ok(Node::ForTable(got!(copy_word(alloc, name)), rows, body))
        }
        Node::Table(table) => copy_word(alloc, table).map(Node::Table),
        Node::Query(keys, e) => {
            let keys = got!(copy_keys(alloc, keys.as_slice()));
            Ok(Node::Query(keys, got!(expr(alloc, names, e))))
        }
        Node::Insert(table, e) => {
            let table = got!(copy_word(alloc, table));
            Ok(Node::Insert(table, got!(expr(alloc, names, e))))
        }
        Node::Update(rows) => change(alloc, names, rows).map(Node::Update),
        Node::Delete(rows) => change(alloc, names, rows).map(Node::Delete),
    }
}

/// An expression in which one more name is seen.
#[cycle(scoped)]
fn under(alloc: Global, names: &mut Names, name: &Word, e: &Expr) -> Result<Expr, NoMemory>
    ensures scoped { IfOk result (λ made. made ≡ scoped e.now (bind name.now names.old)) }
    ensures left { OnOk result (names.new ≡ names.old) }
{
    let mut noted = List::new(alloc);
    names.enter(alloc, &mut noted, name)?;
    let e = expr(alloc, names, e)?;
    names.leave(noted);
    Ok(e)
}

/// An expression in which more names are seen.
#[cycle(scoped)]
pub fn under_all(
    alloc: Global,
    names: &mut Names,
    words: &[Word],
    e: &Expr,
) -> Result<Expr, NoMemory>
    ensures scoped { IfOk result (λ made. made ≡ scoped e.now (bind_all words.now names.old)) }
    ensures left { OnOk result (names.new ≡ names.old) }
{
    let mut noted = List::new(alloc);
    names.enter_all(alloc, &mut noted, words)?;
    let e = expr(alloc, names, e)?;
    names.leave(noted);
    Ok(e)
}

/// Expressions.
#[cycle(scoped)]
fn exprs(alloc: Global, names: &mut Names, list: &[Expr]) -> Result<List<Expr>, NoMemory>
    ensures scoped { IfOk result (λ made. made ≡ all_in names.old (map scoped list.now)) }
    ensures left { OnOk result (names.new ≡ names.old) }
{
    let mut made = List::new(alloc);
    for e in list {
        made.push(expr(alloc, names, e)?)?;
    }
    Ok(made)
}

/// `l = e, m = d`.
#[cycle(scoped)]
fn parts(alloc: Global, names: &mut Names, list: &[PartExpr]) -> Result<List<PartExpr>, NoMemory>
    ensures scoped { IfOk result (λ made. made ≡ all_in names.old (map scoped_part list.now)) }
    ensures left { OnOk result (names.new ≡ names.old) }
{
    let mut made = List::new(alloc);
    for part in list {
        let label = copy_word(alloc, &part.label)?;
        let expr = expr(alloc, names, &part.expr)?;
        made.push(PartExpr { label, expr })?;
    }
    Ok(made)
}

/// `fun (x, y) { e }`.
#[cycle(scoped)]
fn lambda(alloc: Global, names: &mut Names, e: &LambdaExpr) -> Result<LambdaExpr, NoMemory>
    ensures scoped { IfOk result (λ made. made ≡ scoped_lambda e.now names.old) }
    ensures left { OnOk result (names.new ≡ names.old) }
{
    let params = copy_words(alloc, e.params.as_slice())?;
    let place = e.place;
    let body = under_all(alloc, names, e.params.as_slice(), &e.body)?;
    Ok(LambdaExpr {
        params,
        place,
        body,
    })
}

/// `case T(x) -> e`, `case T -> e`.
#[cycle(scoped)]
fn case(alloc: Global, names: &mut Names, case: &Case) -> Result<Case, NoMemory>
    ensures scoped { IfOk result (λ made. made ≡ scoped_case case.now names.old) }
    ensures left { OnOk result (names.new ≡ names.old) }
{
    let tag = copy_word(alloc, &case.tag)?;
    let name = copy_some(alloc, case.name.as_ref())?;
    match &case.name {
        None => {
            let body = expr(alloc, names, &case.body)?;
            Ok(Case { tag, name, body })
        }
        Some(x) => {
            let body = under(alloc, names, x, &case.body)?;
            Ok(Case { tag, name, body })
        }
    }
}

/// The cases of a switch but for the last one.
#[cycle(scoped)]
fn cases(alloc: Global, names: &mut Names, list: &[Case]) -> Result<List<Case>, NoMemory>
    ensures scoped { IfOk result (λ made. made ≡ all_in names.old (map scoped_case list.now)) }
    ensures left { OnOk result (names.new ≡ names.old) }
{
    let mut made = List::new(alloc);
    for one in list {
        made.push(case(alloc, names, one)?)?;
    }
    Ok(made)
}

/// `case x -> e`.
#[cycle(scoped)]
fn last_case(
    alloc: Global,
    names: &mut Names,
    last: &Option<LastCase>,
) -> Result<Option<LastCase>, NoMemory>
    ensures scoped { IfOk result (λ made. made ≡ option_map (λ last. scoped_last last names.old) last.now) }
    ensures left { OnOk result (names.new ≡ names.old) }
{
    match last {
        None => Ok(None),
        Some(last) => {
            let name = copy_word(alloc, &last.name)?;
            let body = under(alloc, names, &last.name, &last.body)?;
            Ok(Some(LastCase { name, body }))
        }
    }
}

/// `(x <-- t) where (c) set (l = e)`.
#[cycle(scoped)]
fn change(alloc: Global, names: &mut Names, rows: &ChangeExpr) -> Result<ChangeExpr, NoMemory>
    ensures scoped { IfOk result (λ made. made ≡ scoped_change rows.now names.old) }
    ensures left { OnOk result (names.new ≡ names.old) }
{
    let mut noted = List::new(alloc);
    names.enter(alloc, &mut noted, &rows.name)?;
    let cond = expr(alloc, names, &rows.cond)?;
    let sets = parts(alloc, names, rows.sets.as_slice())?;
    names.leave(noted);
    let name = copy_word(alloc, &rows.name)?;
    let table = copy_word(alloc, &rows.table)?;
    Ok(ChangeExpr {
        name,
        table,
        cond,
        sets,
    })
}
