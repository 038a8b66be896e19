use lk_ast::{Bytes, Text};

/// A file in memory: its name and what it contains.
#[derive(Drop)]
pub struct FileEntry {
    pub name: Text,
    pub content: Bytes,
}
