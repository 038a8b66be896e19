//! A case: what the top call is given in one run or several, and what is to come of it.

use crate::run::{Run, put_numbers};
use case_files::Content;
use lk_ast::NoMemory;
use std::alloc::Global;

/// A file.
pub struct Entry {
    pub name: String,
    pub content: Content,
}

impl Drop for Entry {
    fn drop(self) {
        let Entry {
            name: _,
            content: _,
        } = self;
    }
}

/// Which part of a case was begun last.
#[derive(Clone, Copy)]
enum Part {
    File,
    Before,
    Behind,
    Run,
}

/// What the top call is given in one run or several, and what is to come of it.
pub struct Case {
    alloc: Global,
    pub files: Vec<Entry>,
    /// What stands before and behind the text of `p.links`.
    pub before: Content,
    pub behind: Content,
    /// The names of the stores, with a space between two of them.
    pub stores: String,
    /// The calls of the first store `failing` that fail, by their numbers.
    pub failing_calls: Vec<u64>,
    /// The runs, one after another over the store that comes back.
    pub runs: Vec<Run>,
    part: Part,
    /// Whether a file has begun in this paragraph.
    has_file: bool,
    /// Whether the runs are those of the settings.
    has_settings_runs: bool,
}

impl Drop for Case {
    fn drop(self) {
        let Case {
            alloc: _,
            files: _,
            before: _,
            behind: _,
            stores: _,
            failing_calls: _,
            runs: _,
            part: _,
            has_file: _,
            has_settings_runs: _,
        } = self;
    }
}

impl Case {
    /// A case without files and runs over an empty store in memory.
    pub fn new(alloc: Global) -> Result<Case, NoMemory> {
        let stores = String::from_str(alloc, "memory")?;
        Ok(Case {
            alloc,
            files: Vec::new(alloc),
            before: Content::new(alloc),
            behind: Content::new(alloc),
            stores,
            failing_calls: Vec::new(alloc),
            runs: Vec::new(alloc),
            part: Part::File,
            has_file: false,
            has_settings_runs: false,
        })
    }

    /// Says that the settings end here, and the lines of the case itself begin.
    pub fn end_settings(&mut self) {
        self.part = Part::File;
        self.has_file = false;
        self.has_settings_runs = true;
    }

    /// Takes what a line says, whose first word is `word`, and tells whether it says anything.
    pub fn take(&mut self, word: &str, rest: &str) -> Result<bool, NoMemory> {
        match word {
            "#" => Ok(true),
            "" | "set" => Ok(rest.is_empty()),
            "mode" => Ok(rest == "ground"),
            "<" => self.add_to_file(word, rest),
            "$" => self.begin_run(rest),
            "file" => self.begin_file(rest),
            "+" | "repeat" | "count" | "bytes" => self.go_on(word, rest),
            _ => self.take_seldom(word, rest),
        }
    }

    /// Takes what a line says that few cases have, or that is about a run.
    fn take_seldom(&mut self, word: &str, rest: &str) -> Result<bool, NoMemory> {
        match word {
            "before" => {
                self.part = Part::Before;
                self.before.add_line(rest)
            }
            "behind" => {
                self.part = Part::Behind;
                self.behind.add_line(rest)
            }
            "stores" => self.name_stores(rest),
            "calls" => put_numbers(&mut self.failing_calls, rest),
            _ => self.take_of_run(word, rest),
        }
    }

    /// Goes on with the part that was begun last.
    fn go_on(&mut self, word: &str, rest: &str) -> Result<bool, NoMemory> {
        match self.part {
            Part::File => self.add_to_file(word, rest),
            Part::Before => self.before.take(word, rest),
            Part::Behind => self.behind.take(word, rest),
            Part::Run => self.take_of_run(word, rest),
        }
    }

    /// Begins a file of that name, which is empty.
    fn begin_file(&mut self, name: &str) -> Result<bool, NoMemory> {
        self.part = Part::File;
        self.has_file = true;
        let name = String::from_str(self.alloc, name)?;
        let content = Content::new(self.alloc);
        self.files.push(Entry { name, content })?;
        Ok(true)
    }

    /// Adds to the file that was begun last in this paragraph, or to `p.links`.
    fn add_to_file(&mut self, word: &str, rest: &str) -> Result<bool, NoMemory> {
        self.part = Part::File;
        if !self.has_file {
            let _has_begun = self.begin_file("p.links")?;
        }
        match self.files.last_mut() {
            Some(file) => file.content.take(word, rest),
            None => Ok(false),
        }
    }

    /// Names the stores.
    fn name_stores(&mut self, names: &str) -> Result<bool, NoMemory> {
        self.stores = String::from_str(self.alloc, names)?;
        Ok(true)
    }

    /// Begins a run with these words. The first of a case makes those of the settings void.
    fn begin_run(&mut self, words: &str) -> Result<bool, NoMemory> {
        if self.has_settings_runs {
            self.has_settings_runs = false;
            self.runs.clear();
        }
        self.part = Part::Run;
        let mut run = Run::new(self.alloc);
        let _are_words = run.add_words(words)?;
        self.runs.push(run)?;
        Ok(true)
    }

    /// Has the last run take what a line says.
    fn take_of_run(&mut self, word: &str, rest: &str) -> Result<bool, NoMemory> {
        self.part = Part::Run;
        match self.runs.last_mut() {
            Some(run) => run.take(word, rest),
            None => Ok(false),
        }
    }
}
