//! A line of text that is written piece by piece.

use lk_ast::{NoMemory, Span, Word};
use std::alloc::Global;

/// The line so far, whether places are shown in it, and whether it is all there: once memory runs out it no longer is, and
/// that is asked once, at the end. What is named `put` writes one piece as it is; what is named `add` writes parts, each
/// behind a comma where it isn't the first.
#[derive(Drop)]
pub struct Line {
    text: String,
    shows_places: bool,
    is_whole: bool,
}

impl Line {
    /// An empty line.
    pub fn new(alloc: Global, shows_places: bool) -> Line {
        Line {
            text: String::new(alloc),
            shows_places,
            is_whole: true,
        }
    }

    /// What was written, if there was memory for all of it.
    pub fn finished(self) -> Result<String, NoMemory> {
        if self.is_whole {
            Ok(self.text)
        } else {
            Err(NoMemory)
        }
    }

    /// Remembers that memory ran out.
    pub fn put_no_memory(&mut self) {
        self.is_whole = false;
    }

    /// Puts a piece of text.
    pub fn put(&mut self, piece: &str) {
        if self.text.push_str(piece).is_err() {
            self.is_whole = false;
        }
    }

    /// Puts the comma before a part, where it isn't the first one of the line or behind an opening bracket.
    pub fn put_comma(&mut self) {
        match self.text.as_bytes() {
            [] | [.., b'(' | b'['] => {}
            _ => self.put(", "),
        }
    }

    /// Puts an integer.
    pub fn put_number(&mut self, number: i64) {
        if write!(self.text, "{number}").is_err() {
            self.is_whole = false;
        }
    }

    /// Puts how many there are of something.
    pub fn put_count(&mut self, count: u64) {
        if write!(self.text, "{count}").is_err() {
            self.is_whole = false;
        }
    }

    /// Puts a text between quotes, with escapes.
    pub fn put_quoted(&mut self, text: &str) {
        if write!(self.text, "{text:?}").is_err() {
            self.is_whole = false;
        }
    }

    /// Puts where something starts and ends, behind a space.
    pub fn put_span(&mut self, at: Span) {
        if write!(self.text, " {} {}", at.start, at.end).is_err() {
            self.is_whole = false;
        }
    }

    /// Puts a place, where places are shown.
    pub fn put_place(&mut self, at: Span) {
        if self.shows_places && write!(self.text, "@{}-{}", at.start, at.end).is_err() {
            self.is_whole = false;
        }
    }

    /// Puts a word, with its place where places are shown.
    pub fn put_word(&mut self, word: &Word) {
        self.put(word.text.as_str());
        self.put_place(word.at);
    }

    /// Adds a word as a part.
    pub fn add_word(&mut self, word: &Word) {
        self.put_comma();
        self.put_word(word);
    }

    /// Adds a list of words as one part.
    pub fn add_words(&mut self, words: &[Word]) {
        self.put_comma();
        self.put("[");
        for word in words {
            self.add_word(word);
        }
        self.put("]");
    }
}
