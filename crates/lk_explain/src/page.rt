use crate::excerpts::shown_part;
use crate::messages::message_at;
use lk_ast::{NoMemory, Span, Text};
use std::alloc::Global;

/// A text and the name of the file in which it stands.
#[derive(Clone, Copy)]
pub struct Page<'a> {
    pub file: &'a str,
    pub text: &'a str,
}

impl<'a> Page<'a> {
    /// What is told of a place.
    pub fn told(self, alloc: Global, at: Span, what: &str) -> Result<Text, NoMemory> {
        message_at(alloc, self.file, self.text, at, what)
    }

    /// What stands at a place, as far as it is shown.
    pub fn part(self, alloc: Global, at: Span) -> Result<Text, NoMemory> {
        shown_part(alloc, self.text, at)
    }

    /// What stands from the beginning of a place on.
    pub fn behind(self, at: Span) -> &'a str {
        self.text.get(at.start as usize..).unwrap_or("")
    }

    /// What stands in front of a place.
    pub fn before(self, at: Span) -> &'a str {
        self.text.get(..at.start as usize).unwrap_or("")
    }
}
