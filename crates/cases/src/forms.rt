//! Lines of the table of nodes that a ground program becomes.

use lk_ast::{List, Loc, NoMemory, Text};
use lk_ground::GroundProgram;
use lk_ir::{Block, Body, CaseForm, Choice, Form, Forms, Kept, Kind, LabelForm, Op};
use lk_lower::lower;
use lk_types::print_ground;
use std::alloc::Global;

/// Lines of the table: its local names, its types, instances and labels, its nodes, and the tables that labels change.
pub fn forms_lines(alloc: Global, program: &GroundProgram) -> Result<String, NoMemory> {
    let ir = lower(alloc, program)?;
    let forms = ir.forms().get();
    let mut lines = String::new(alloc);
    push_heads(alloc, &mut lines, forms)?;
    for (n, form) in forms.labels.as_slice().iter().enumerate() {
        push_label(alloc, &mut lines, n, form)?;
    }
    for (n, form) in forms.nodes.as_slice().iter().enumerate() {
        push_node(alloc, &mut lines, n, form)?;
    }
    for touched in forms.tables.as_slice() {
        let table = touched.table.as_str();
        let label = touched.label;
        lines.push_str(format!(in alloc; "changes {label} {table}\n")?.as_str())?;
    }
    Ok(lines)
}

/// `locals a b`, `type 0 String`, `fun 0 main 1`.
fn push_heads(alloc: Global, lines: &mut String, forms: &Forms) -> Result<(), NoMemory> {
    let locals = words_text(alloc, forms.locals.as_slice())?;
    lines.push_str(format!(in alloc; "locals{locals}\n")?.as_str())?;
    for (n, ty) in forms.types.as_slice().iter().enumerate() {
        let ty = print_ground(alloc, ty)?;
        lines.push_str(format!(in alloc; "type {n} {}\n", ty.as_str())?.as_str())?;
    }
    for (n, title) in forms.titles.as_slice().iter().enumerate() {
        let title = title.as_str();
        let label = numbers_text(alloc, forms.wholes.as_slice().get(n..n + 1).unwrap_or(&[]))?;
        lines.push_str(format!(in alloc; "fun {n} {title}{label}\n")?.as_str())?;
    }
    Ok(())
}

/// `label 3 of 0 : 5 node 7 client captures 0 2 takes 1 from 8`, without a node of an instance, and without a body of what has none.
fn push_label(
    alloc: Global,
    lines: &mut String,
    n: usize,
    form: &LabelForm,
) -> Result<(), NoMemory> {
    let (owner, ty) = (form.owner, form.ty);
    let node = some_number(alloc, " node", form.node)?;
    let body = match &form.body {
        Some(body) => body_text(alloc, body)?,
        None => String::new(alloc),
    };
    lines.push_str(format!(in alloc; "label {n} of {owner} : {ty}{node}{body}\n")?.as_str())?;
    Ok(())
}

fn body_text(alloc: Global, body: &Body) -> Result<String, NoMemory> {
    let place = place_name(body.place);
    let names = numbers_text(alloc, body.names.as_slice())?;
    let params = numbers_text(alloc, body.params.as_slice())?;
    let root = body.root;
    Ok(format!(in alloc; " {place} captures{names} takes{params} from {root}")?)
}

fn place_name(place: Loc) -> &'static str {
    match place {
        Loc::Client => "client",
        Loc::Server => "server",
        Loc::Any => "any",
    }
}

/// `node 4 in 1 @30 40 add parts 5 6 tails : 2`.
fn push_node(alloc: Global, lines: &mut String, n: usize, form: &Form) -> Result<(), NoMemory> {
    let kind = kind_text(alloc, &form.kind)?;
    let parts = numbers_text(alloc, form.parts.as_slice())?;
    let tails = numbers_text(alloc, form.tails.as_slice())?;
    let (within, ty, start, end) = (form.within, form.ty, form.at.start, form.at.end);
    let line = format!(in alloc;
        "node {n} in {within} @{start} {end} {kind} parts{parts} tails{tails} : {ty}\n"
    )?;
    lines.push_str(line.as_str())?;
    Ok(())
}

fn kind_text(alloc: Global, kind: &Kind) -> Result<String, NoMemory> {
    match kind {
        Kind::Op(op) => op_text(alloc, op),
        Kind::Name(x) => numbered(alloc, "name", *x),
        Kind::Function(i) => numbered(alloc, "function", *i),
        Kind::Lambda(label, names) => {
            let names = numbers_text(alloc, names.as_slice())?;
            Ok(format!(in alloc; "lambda {label} captures{names}")?)
        }
        Kind::Call(i) => numbered(alloc, "call", *i),
        Kind::Apply => plain(alloc, "apply"),
        Kind::Bind(x) => numbered(alloc, "var", *x),
        Kind::Then => plain(alloc, "seq"),
        Kind::Choose(choice) => plain(alloc, choice_name(*choice)),
        Kind::Print => plain(alloc, "print"),
        Kind::Switch(cases, last) => switch_text(alloc, cases.as_slice(), *last),
        Kind::For(x) => numbered(alloc, "for", *x),
        Kind::Reach(block, label, kept) => {
            let kept = kept_text(alloc, kept.as_slice())?;
            let block = block_name(*block);
            Ok(format!(in alloc; "{block} {label} captures{kept}")?)
        }
    }
}

fn choice_name(choice: Choice) -> &'static str {
    match choice {
        Choice::If => "if",
        Choice::And => "and",
        Choice::Or => "or",
        Choice::Where => "where",
    }
}

fn block_name(block: Block) -> &'static str {
    match block {
        Block::Query => "query",
        Block::TableRead => "table",
        Block::Insert => "insert",
        Block::Update => "update",
        Block::Delete => "delete",
    }
}

/// `switch A 1; B; 2`: the cases, each with the name that it binds, and the name that the last one binds.
fn switch_text(alloc: Global, cases: &[CaseForm], last: Option<u32>) -> Result<String, NoMemory> {
    let mut text = String::from_str(alloc, "switch")?;
    for case in cases {
        let tag = case.tag.as_str();
        let name = some_number(alloc, "", case.name)?;
        text.push_str(format!(in alloc; " {tag}{name};")?.as_str())?;
    }
    text.push_str(some_number(alloc, "", last)?.as_str())?;
    Ok(text)
}

/// Names with their types, each as ` 1:4`.
fn kept_text(alloc: Global, kept: &[Kept]) -> Result<String, NoMemory> {
    let mut text = String::new(alloc);
    for one in kept {
        let (name, ty) = (one.name, one.ty);
        text.push_str(format!(in alloc; " {name}:{ty}")?.as_str())?;
    }
    Ok(text)
}

fn op_text(alloc: Global, op: &Op) -> Result<String, NoMemory> {
    match op {
        Op::Int(number) => Ok(format!(in alloc; "int {number}")?),
        Op::Text(text) => Ok(format!(in alloc; "text {}", text.as_str())?),
        Op::Bool(truth) => Ok(format!(in alloc; "bool {truth}")?),
        Op::Record(labels) => labelled(alloc, "record", labels),
        Op::Extend(labels) => labelled(alloc, "extend", labels),
        Op::Project(label) => Ok(format!(in alloc; "project {}", label.as_str())?),
        Op::Tag(tag) => Ok(format!(in alloc; "tag {}", tag.as_str())?),
        Op::List => plain(alloc, "list"),
        Op::Concat => plain(alloc, "concat"),
        Op::Append => plain(alloc, "append"),
        Op::Cons => plain(alloc, "cons"),
        Op::Add => plain(alloc, "add"),
        Op::Sub => plain(alloc, "sub"),
        Op::Mul => plain(alloc, "mul"),
        Op::Div => plain(alloc, "div"),
        Op::Mod => plain(alloc, "mod"),
        Op::Eq => plain(alloc, "eq"),
        Op::Ne => plain(alloc, "ne"),
        Op::Lt => plain(alloc, "lt"),
        Op::Le => plain(alloc, "le"),
        Op::Gt => plain(alloc, "gt"),
        Op::Ge => plain(alloc, "ge"),
        Op::Neg => plain(alloc, "neg"),
        Op::Not => plain(alloc, "not"),
        Op::Hd => plain(alloc, "hd"),
        Op::Tl => plain(alloc, "tl"),
        Op::Empty => plain(alloc, "empty"),
        Op::IntToString => plain(alloc, "intToString"),
    }
}

fn labelled(alloc: Global, name: &str, labels: &List<Text>) -> Result<String, NoMemory> {
    let labels = words_text(alloc, labels.as_slice())?;
    Ok(format!(in alloc; "{name}{labels}")?)
}

fn plain(alloc: Global, name: &str) -> Result<String, NoMemory> {
    Ok(String::from_str(alloc, name)?)
}

fn numbered(alloc: Global, name: &str, number: u32) -> Result<String, NoMemory> {
    Ok(format!(in alloc; "{name} {number}")?)
}

/// A name and a number, or nothing.
fn some_number(alloc: Global, name: &str, number: Option<u32>) -> Result<String, NoMemory> {
    match number {
        Some(number) => numbered(alloc, name, number),
        None => Ok(String::new(alloc)),
    }
}

/// Words, each behind a space.
fn words_text(alloc: Global, words: &[Text]) -> Result<String, NoMemory> {
    let mut text = String::new(alloc);
    for word in words {
        text.push_str(" ")?;
        text.push_str(word.as_str())?;
    }
    Ok(text)
}

/// Numbers, each behind a space.
fn numbers_text(alloc: Global, numbers: &[u32]) -> Result<String, NoMemory> {
    let mut text = String::new(alloc);
    for number in numbers {
        let number = *number;
        text.push_str(format!(in alloc; " {number}")?.as_str())?;
    }
    Ok(text)
}
