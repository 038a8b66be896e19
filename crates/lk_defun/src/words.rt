//! Words of nodes, and of what has a label inside an instance.

ghost use Rattle.lk_defun.specs.Words.{block_word, choice_word, node_word, op_word, suffix};
ghost use Rattle.std.specs.Prelude.{◌≡◌};

use lk_code::FunKind;
use lk_ir::{Block, Choice, Kind, Op};

/// The word of a node.
pub fn node_word(kind: &Kind) -> &'static str
    ensures { result.now ≡ node_word kind.now }
{
    match kind {
        Kind::Op(op) => op_word(op),
        Kind::Name(_) => "name",
        Kind::Function(_) => "function",
        Kind::Lambda(_, _) => "lambda",
        Kind::Call(_) => "call",
        Kind::Apply => "apply",
        Kind::Bind(_) => "var",
        Kind::Then => "seq",
        Kind::Choose(choice) => choice_word(*choice),
        Kind::Print => "print",
        Kind::Switch(_, _) => "switch",
        Kind::For(_) => "for",
        Kind::Reach(block, _, _) => block_word(*block),
    }
}

fn op_word(op: &Op) -> &'static str
    ensures { result.now ≡ op_word op.now }
{
    match op {
        Op::Int(_) => "int",
        Op::Text(_) => "text",
        Op::Bool(_) => "bool",
        Op::List => "list",
        Op::Concat => "concat",
        Op::Append => "append",
        Op::Cons => "cons",
        Op::Add => "add",
        Op::Sub => "sub",
        Op::Mul => "mul",
        Op::Div => "div",
        Op::Mod => "mod",
        Op::Eq => "eq",
        Op::Ne => "ne",
        Op::Lt => "lt",
        Op::Le => "le",
        Op::Gt => "gt",
        Op::Ge => "ge",
        Op::Neg => "neg",
        Op::Not => "not",
        Op::Hd => "hd",
        Op::Tl => "tl",
        Op::Empty => "empty",
        Op::IntToString => "intToString",
        Op::Record(_) => "record",
        Op::Extend(_) => "extend",
        Op::Project(_) => "project",
        Op::Tag(_) => "tag",
    }
}

fn choice_word(choice: Choice) -> &'static str
    ensures { result.now ≡ choice_word choice }
{
    match choice {
        Choice::If => "if",
        Choice::And => "and",
        Choice::Or => "or",
        Choice::Where => "where",
    }
}

fn block_word(block: Block) -> &'static str
    ensures { result.now ≡ block_word block }
{
    match block {
        Block::Query => "query",
        Block::TableRead => "table",
        Block::Insert => "insert",
        Block::Update => "update",
        Block::Delete => "delete",
    }
}

/// What follows the name of an instance in the name of what stands inside it.
pub fn suffix(kind: FunKind) -> &'static str
    ensures { result.now ≡ suffix kind }
{
    match kind {
        FunKind::Print | FunKind::Top => "",
        FunKind::Lambda => "/lambda",
        FunKind::Query => "/query",
        FunKind::TableRead => "/table",
        FunKind::Insert => "/insert",
        FunKind::Update => "/update",
        FunKind::Delete => "/delete",
    }
}
