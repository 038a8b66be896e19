//! Why a run was refused, and what was read for it: what a message needs.

ghost use Rattle.lk_cli.specs.Answers.{IsTold};

use crate::answer::{Answer, Refusal};
use lk_ast::{Bytes, Text};
use std::alloc::Global;

/// A file that was read.
#[derive(Drop)]
pub struct Source {
    pub name: Text,
    /// What it contains, or as much of it as is read of a file that is too long.
    pub text: Bytes,
}

/// The files that were read for a command, as far as there was memory to keep their names.
#[derive(Drop)]
pub struct Sources {
    pub program: Option<Source>,
    pub tables: Option<Source>,
}

/// Why a run was refused, and what was read for it.
#[derive(Drop)]
pub struct Refused {
    pub refusal: Refusal,
    pub sources: Sources,
}

impl Sources {
    /// None are read.
    pub fn none() -> Sources {
        Sources {
            program: None,
            tables: None,
        }
    }

    /// Keeps the program's file.
    pub(crate) fn keep_program(&mut self, alloc: Global, name: &str, text: Bytes) {
        self.program = source_of(alloc, name, text);
    }

    /// Keeps the tables file.
    pub(crate) fn keep_tables(&mut self, alloc: Global, name: &str, text: Bytes) {
        self.tables = source_of(alloc, name, text);
    }
}

/// The file, where there is memory for its name.
fn source_of(alloc: Global, name: &str, text: Bytes) -> Option<Source> {
    match Text::from_str(alloc, name) {
        Ok(name) => Some(Source { name, text }),
        Err(_) => None,
    }
}

/// What a message needs for this answer: nothing, unless it is a refusal.
pub fn for_message(answer: Result<Answer, Refusal>, sources: Sources) -> Option<Refused>
    ensures { IsTold answer result }
{
    match answer {
        Ok(_) => None,
        Err(refusal) => Some(Refused { refusal, sources }),
    }
}
