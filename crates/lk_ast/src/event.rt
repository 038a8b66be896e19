use crate::list::List;
use crate::table::Row;
use crate::text::Text;
use crate::value::Value;

/// Why an evaluation ends without a value: a divisor is zero, or a list has no head or no tail.
#[derive(Clone, Copy, Debug, PartialEq, Eq)]
pub enum Trap {
    Divide,
    Head,
    Tail,
}

/// A query or the reading of a table: its place in the text, the values that it captured, and its answer.
pub struct ReadEvent {
    pub site: u32,
    pub args: List<Value>,
    pub answer: List<Row>,
}

impl Drop for ReadEvent {
    fn drop(self) {
        let Self {
            site: _,
            args: _,
            answer: _,
        } = self;
    }
}

/// An insertion, update or deletion: its place in the text and the values that it takes.
#[derive(Drop)]
pub struct WriteEvent {
    pub site: u32,
    pub args: List<Value>,
}

/// What an evaluation does that others can see. `Enter` is control passing from client to server, `Leave` the reverse.
pub enum Event {
    Print(Text),
    Enter,
    Leave,
    Read(ReadEvent),
    Write(WriteEvent),
}

impl Drop for Event {
    fn drop(self) {
        match self {
            Self::Print(_) => {}
            Self::Enter => {}
            Self::Leave => {}
            Self::Read(_) => {}
            Self::Write(_) => {}
        }
    }
}
