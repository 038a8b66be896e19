//! A run of the top call: its words, and what is to come of it.

use case_files::{Content, add_numbers};
use lk_ast::NoMemory;
use std::alloc::Global;

/// The rows of a table, as JSON, that the store which comes back is to hold.
pub struct Held {
    pub table: String,
    /// The columns in byte order, as `n:Int`, with a space between two of them.
    pub columns: String,
    pub rows: Content,
}

impl Drop for Held {
    fn drop(self) {
        let Held {
            table: _,
            columns: _,
            rows: _,
        } = self;
    }
}

/// Which part of a run was begun last.
#[derive(Clone, Copy)]
enum Begun {
    Word,
    Printed,
    Message,
    Rows,
}

/// A run of the top call: its words, and what is to come of it.
pub struct Run {
    alloc: Global,
    pub words: Vec<Content>,
    /// The reads of files and the writes to the sink that fail, by their numbers.
    pub failing_reads: Vec<u64>,
    pub failing_writes: Vec<u64>,
    /// The texts of which one is printed, each without its last line feed. Nothing is printed where there is none.
    pub printed: Vec<Content>,
    /// Whether what is printed only ends with one of these texts.
    pub is_end_alone: bool,
    /// What is told of a refusal, without its last line feed. It isn't asked where no line says anything of it.
    pub message: Content,
    /// The statuses of which it ends with one; 0 where there is none.
    pub statuses: Vec<u64>,
    pub held: Vec<Held>,
    /// The name of the store that comes back, or the empty name where none does. What comes back isn't asked where there is no
    /// name.
    pub back: Vec<String>,
    begun: Begun,
}

impl Drop for Run {
    fn drop(self) {
        let Run {
            alloc: _,
            words: _,
            failing_reads: _,
            failing_writes: _,
            printed: _,
            is_end_alone: _,
            message: _,
            statuses: _,
            held: _,
            back: _,
            begun: _,
        } = self;
    }
}

impl Run {
    /// A run without words, which prints nothing and ends with the status 0.
    pub fn new(alloc: Global) -> Run {
        Run {
            alloc,
            words: Vec::new(alloc),
            failing_reads: Vec::new(alloc),
            failing_writes: Vec::new(alloc),
            printed: Vec::new(alloc),
            is_end_alone: false,
            message: Content::new(alloc),
            statuses: Vec::new(alloc),
            held: Vec::new(alloc),
            back: Vec::new(alloc),
            begun: Begun::Word,
        }
    }

    /// Adds words that are written with a space between two of them.
    pub fn add_words(&mut self, text: &str) -> Result<bool, NoMemory> {
        if text.is_empty() {
            return Ok(true);
        }
        for word in text.split(' ') {
            self.add_word(word)?;
        }
        Ok(true)
    }

    /// Takes what a line says, whose first word is `word`, and tells whether it says anything.
    pub fn take(&mut self, word: &str, rest: &str) -> Result<bool, NoMemory> {
        match word {
            ">" => self.add_printed(rest),
            "or" => self.begin_printed(),
            "ends" => self.begin_end(rest),
            "!" => self.add_message(rest),
            "status" => put_numbers(&mut self.statuses, rest),
            "word" => self.add_word(rest),
            "held" => self.add_held(rest),
            _ => self.take_seldom(word, rest),
        }
    }

    /// Takes what a line says that few cases have.
    fn take_seldom(&mut self, word: &str, rest: &str) -> Result<bool, NoMemory> {
        match word {
            "reads" => put_numbers(&mut self.failing_reads, rest),
            "writes" => put_numbers(&mut self.failing_writes, rest),
            "back" => self.name_back(rest),
            _ => self.go_on(word, rest),
        }
    }

    /// Adds a word.
    fn add_word(&mut self, text: &str) -> Result<bool, NoMemory> {
        self.begun = Begun::Word;
        add_content(self.alloc, &mut self.words, text)
    }

    /// Begins another text that may be printed, which is empty.
    fn begin_printed(&mut self) -> Result<bool, NoMemory> {
        self.begun = Begun::Printed;
        self.printed.push(Content::new(self.alloc))?;
        Ok(true)
    }

    /// Adds a line to the text that is printed.
    fn add_printed(&mut self, line: &str) -> Result<bool, NoMemory> {
        self.begun = Begun::Printed;
        match self.printed.last_mut() {
            Some(text) => text.add_line(line),
            None => add_content(self.alloc, &mut self.printed, line),
        }
    }

    /// Begins a text with which what is printed ends.
    fn begin_end(&mut self, line: &str) -> Result<bool, NoMemory> {
        self.begun = Begun::Printed;
        self.is_end_alone = true;
        add_content(self.alloc, &mut self.printed, line)
    }

    /// Adds a line to the message.
    fn add_message(&mut self, line: &str) -> Result<bool, NoMemory> {
        self.begun = Begun::Message;
        self.message.add_line(line)
    }

    /// Adds rows that are to be held: `t m n = [..]` of the table `t` with the columns `m` and `n`.
    fn add_held(&mut self, text: &str) -> Result<bool, NoMemory> {
        self.begun = Begun::Rows;
        let Some((head, rows)) = text.split_once(" = ") else {
            return Ok(false);
        };
        self.held.push(held_of(self.alloc, head, rows)?)?;
        Ok(true)
    }

    /// Names the store that comes back.
    fn name_back(&mut self, name: &str) -> Result<bool, NoMemory> {
        self.back.push(String::from_str(self.alloc, name)?)?;
        Ok(true)
    }

    /// Goes on with the part that was begun last.
    fn go_on(&mut self, word: &str, rest: &str) -> Result<bool, NoMemory> {
        match self.begun {
            Begun::Word => take_last(&mut self.words, word, rest),
            Begun::Printed => take_last(&mut self.printed, word, rest),
            Begun::Message => self.message.take(word, rest),
            Begun::Rows => match self.held.last_mut() {
                Some(held) => held.rows.take(word, rest),
                None => Ok(false),
            },
        }
    }
}

/// Puts numbers in place of those that are there.
pub fn put_numbers(numbers: &mut Vec<u64>, text: &str) -> Result<bool, NoMemory> {
    numbers.clear();
    add_numbers(numbers, text)
}

/// Adds a text of one line to these.
fn add_content(alloc: Global, all: &mut Vec<Content>, line: &str) -> Result<bool, NoMemory> {
    let mut content = Content::new(alloc);
    let _is_line = content.add_line(line)?;
    all.push(content)?;
    Ok(true)
}

/// Has the last of these take what a line says.
fn take_last(all: &mut Vec<Content>, word: &str, rest: &str) -> Result<bool, NoMemory> {
    match all.last_mut() {
        Some(content) => content.take(word, rest),
        None => Ok(false),
    }
}

/// The rows of a table and its columns.
fn held_of(alloc: Global, head: &str, rows: &str) -> Result<Held, NoMemory> {
    let (table, columns) = head.split_once(' ').unwrap_or((head, ""));
    let table = String::from_str(alloc, table)?;
    let columns = String::from_str(alloc, columns)?;
    let mut content = Content::new(alloc);
    let _is_line = content.add_line(rows)?;
    Ok(Held {
        table,
        columns,
        rows: content,
    })
}
