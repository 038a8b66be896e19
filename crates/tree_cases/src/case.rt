//! What the lines of a case say.

use case_files::{Content, parted};
use lk_ast::NoMemory;
use std::alloc::Global;

/// A text, what is to be printed of it, and the lines that ask something of it.
pub struct Case<'a> {
    before: Content,
    text: Content,
    behind: Content,
    printed: String,
    asked: Vec<&'a str>,
    has_crlf: bool,
}

impl Drop for Case<'_> {
    fn drop(self) {
        let Case {
            before: _,
            text: _,
            behind: _,
            printed: _,
            asked: _,
            has_crlf: _,
        } = self;
    }
}

impl<'a> Case<'a> {
    /// A case that says nothing yet.
    pub fn new(alloc: Global) -> Case<'a> {
        Case {
            before: Content::new(alloc),
            text: Content::new(alloc),
            behind: Content::new(alloc),
            printed: String::new(alloc),
            asked: Vec::new(alloc),
            has_crlf: false,
        }
    }

    /// Takes what these lines say.
    pub fn take_lines(&mut self, lines: &'a str) -> Result<(), NoMemory> {
        for line in lines.split('\n') {
            let (word, rest) = parted(line);
            if !self.take(word, rest)? {
                self.asked.push(line)?;
            }
        }
        Ok(())
    }

    /// Takes what a line says that asks nothing, and tells whether it is one.
    fn take(&mut self, word: &str, rest: &str) -> Result<bool, NoMemory> {
        match word {
            "" | "#" | "set" => Ok(true),
            "before" => self.before.take("<", rest),
            "behind" => self.behind.take("<", rest),
            ">" => self.take_printed(rest),
            "crlf" => self.take_crlf(),
            "<" => self.take_line(rest),
            _ => self.text.take(word, rest),
        }
    }

    fn take_crlf(&mut self) -> Result<bool, NoMemory> {
        self.has_crlf = true;
        Ok(true)
    }

    /// Begins a line of the text, behind CR LF where the case says so.
    fn take_line(&mut self, line: &str) -> Result<bool, NoMemory> {
        if self.has_crlf && self.text.has_begun() {
            self.text.take("bytes", "0d")?;
        }
        self.text.take("<", line)
    }

    fn take_printed(&mut self, line: &str) -> Result<bool, NoMemory> {
        self.printed.push_str(line)?;
        self.printed.push('\n')?;
        Ok(true)
    }

    /// The text without what stands behind it.
    pub fn front(&self, alloc: Global) -> Result<Vec<u8>, NoMemory> {
        let mut front = Vec::from_slice(alloc, self.before.as_bytes())?;
        front.extend_from_slice(self.text.as_bytes())?;
        Ok(front)
    }

    /// What stands behind the text.
    pub fn behind(&self) -> &[u8] {
        self.behind.as_bytes()
    }

    /// What is to be printed, or nothing where that isn't asked.
    pub fn printed(&self) -> &str {
        self.printed.as_str()
    }

    /// The lines that ask something.
    pub fn asked(&self) -> &[&'a str] {
        self.asked.as_slice()
    }
}
