//! What a machine holds between two steps.

use crate::scope::Scope;
use lk_ast::{List, Loc, Span, Text, Trap, Value};
use lk_code::Frame;

/// A node whose first positions have these values, and whose next one is plain.
#[derive(Drop)]
pub struct Held {
    pub node: u32,
    pub scope: Scope,
    pub done: List<Value>,
}

/// A `for` whose body is plain: the name that it binds, its body, the elements left, the last first, and the list made so far.
#[derive(Drop)]
pub struct Turns {
    pub at: Span,
    pub name: u32,
    pub body: u32,
    pub left: List<Value>,
    pub scope: Scope,
    pub made: List<Value>,
}

/// What the next step begins with: it enters a node, the next position of a node, or a plain body; hands a value on; crosses to the other
/// place with a call; or asks for tables, of a label that was started. Otherwise the machine waits for what tables answer, or is done.
#[derive(Drop)]
pub enum Now {
    Enter(u32, Scope),
    Hold(Held),
    Turn(Turns),
    Give(Value),
    Cross(u32, List<Value>),
    First(u32, List<Value>),
    Waits,
    Over,
}

/// Where the machine runs, the frames that wait, the last of which waits for the next value and the first of which is the return of a
/// label, what comes next, and the text that the last step printed. The frame of a `for` at its body holds the elements left backwards.
#[derive(Drop)]
pub struct State {
    pub place: Loc,
    pub stack: List<Frame>,
    pub now: Now,
    pub printed: Option<Text>,
}

/// What a step comes to: it goes on; it ends with a value or in a trap; it calls what has this label at the other place; or it asks for
/// what has this label and reads or changes tables.
#[derive(Drop)]
pub enum Next {
    More,
    Ended(Value),
    Trapped(Trap),
    CallOut(u32, List<Value>),
    Db(u32, List<Value>),
}
