//! What is told of functions and frames.

use lk_ast::{List, Loc, Text};
use lk_types::{Effect, Ground};

/// What a label stands for: `print`, an instance, a lambda, or what reads or changes tables.
#[derive(Clone, Copy, PartialEq, Eq)]
pub enum FunKind {
    Print,
    Top,
    Lambda,
    Query,
    TableRead,
    Insert,
    Update,
    Delete,
}

/// What has a label: its name, where it runs, and the types of its parameters, of its result and of the values that it keeps.
pub struct FunInfo {
    pub name: Text,
    pub kind: FunKind,
    pub place: Loc,
    pub params: List<Ground>,
    pub effects: List<Effect>,
    pub result: Ground,
    pub env: List<Ground>,
}

impl Drop for FunInfo {
    fn drop(self) {
        let Self {
            name: _,
            kind: _,
            place: _,
            params: _,
            effects: _,
            result: _,
            env: _,
        } = self;
    }
}

/// A frame: the instance that it stands in, where it runs, the node and the position that it waits at, and the types of the values that
/// it holds, of the value that it waits for, and of what it comes to.
pub struct FrameInfo {
    pub owner: Text,
    pub place: Loc,
    pub node: Text,
    pub position: u32,
    pub env: List<Ground>,
    pub hole: Ground,
    pub result: Ground,
}

impl Drop for FrameInfo {
    fn drop(self) {
        let Self {
            owner: _,
            place: _,
            node: _,
            position: _,
            env: _,
            hole: _,
            result: _,
        } = self;
    }
}
