//! What a file contains that the lines of a case make.

use crate::readers::{add_bytes, parted};
use lk_ast::NoMemory;
use std::alloc::Global;

/// What a file contains, which the lines of a case make piece by piece.
pub struct Content {
    alloc: Global,
    bytes: Vec<u8>,
    has_begun: bool,
}

impl Drop for Content {
    fn drop(self) {
        let Content {
            alloc: _,
            bytes: _,
            has_begun: _,
        } = self;
    }
}

impl Content {
    /// What contains nothing.
    pub fn new(alloc: Global) -> Content {
        Content {
            alloc,
            bytes: Vec::new(alloc),
            has_begun: false,
        }
    }

    /// The bytes so far.
    pub fn as_bytes(&self) -> &[u8] {
        self.bytes.as_slice()
    }

    /// A copy.
    pub fn copied(&self) -> Result<Content, NoMemory> {
        Ok(Content {
            alloc: self.alloc,
            bytes: self.bytes.clone()?,
            has_begun: self.has_begun,
        })
    }

    /// Whether a line has said anything of it.
    pub fn has_begun(&self) -> bool {
        self.has_begun
    }

    /// Takes what a line says, whose first word is `word`, and tells whether it says anything:
    /// - `< TEXT` begins a line: a line feed where something came before, and the text,
    /// - `+ TEXT` goes on in the same line,
    /// - `repeat 3 TEXT` goes on with the text so many times,
    /// - `count 0 9 TEXT` goes on with the text for each of these numbers, which stands for `{k}`, and the one behind it for
    ///   `{k+1}`,
    /// - `bytes ff 00` goes on with these bytes.
    pub fn take(&mut self, word: &str, rest: &str) -> Result<bool, NoMemory> {
        match word {
            "<" => self.add_line(rest),
            "+" => self.add(rest),
            "repeat" => self.add_repeated(rest),
            "count" => self.add_counted(rest),
            "bytes" => self.add_bytes(rest),
            _ => Ok(false),
        }
    }

    /// Adds a line, behind a line feed where something came before.
    pub fn add_line(&mut self, line: &str) -> Result<bool, NoMemory> {
        if self.has_begun {
            self.bytes.push(b'\n')?;
        }
        self.add(line)
    }

    /// Adds a text.
    fn add(&mut self, text: &str) -> Result<bool, NoMemory> {
        self.has_begun = true;
        self.bytes.extend_from_slice(text.as_bytes())?;
        Ok(true)
    }

    /// Adds bytes that are written as hexadecimal numbers.
    fn add_bytes(&mut self, text: &str) -> Result<bool, NoMemory> {
        self.has_begun = true;
        add_bytes(&mut self.bytes, text)
    }

    /// Adds the text behind a number so many times.
    fn add_repeated(&mut self, text: &str) -> Result<bool, NoMemory> {
        self.has_begun = true;
        let (count, piece) = parted(text);
        let Ok(times) = count.parse::<u64>() else {
            return Ok(false);
        };
        let mut left = times;
        let mut block = Vec::from_slice(self.alloc, piece.as_bytes())?;
        // The block is the text once, twice, four times and so on.
        for _ in 0..64 {
            if left == 0 {
                break;
            }
            if left % 2 == 1 {
                self.bytes.extend_from_slice(block.as_slice())?;
            }
            left /= 2;
            let copy = block.clone()?;
            block.extend_from_slice(copy.as_slice())?;
        }
        Ok(true)
    }

    /// Adds the text behind two numbers for each number from the one to the other.
    fn add_counted(&mut self, text: &str) -> Result<bool, NoMemory> {
        self.has_begun = true;
        let (first, behind) = parted(text);
        let (last, piece) = parted(behind);
        let (Ok(first), Ok(last)) = (first.parse::<u32>(), last.parse::<u32>()) else {
            return Ok(false);
        };
        for number in first..=last {
            self.add_numbered(piece, number)?;
        }
        Ok(true)
    }

    /// Adds a text in which a number stands for `{k}`, and the one behind it for `{k+1}`.
    fn add_numbered(&mut self, piece: &str, number: u32) -> Result<(), NoMemory> {
        let alloc = self.alloc;
        let this = format!(in alloc; "{number}")?;
        let next = u64::from(number).wrapping_add(1);
        let next = format!(in alloc; "{next}")?;
        let text = piece.replace(alloc, "{k}", this.as_str())?;
        let text = text.replace(alloc, "{k+1}", next.as_str())?;
        self.bytes.extend_from_slice(text.as_bytes())?;
        Ok(())
    }
}
