//! What words ask for.

use lk_ast::Text;

/// What words ask for, in one of the four forms.
#[derive(Drop)]
pub enum Command {
    Check(CheckCommand),
    Sql(SqlCommand),
    Labels(LabelsCommand),
    Source(SourceCommand),
}

/// `check PROGRAM`.
#[derive(Drop)]
pub struct CheckCommand {
    /// The file of the program.
    pub program: Text,
}

/// `sql PROGRAM`.
#[derive(Drop)]
pub struct SqlCommand {
    /// The file of the program.
    pub program: Text,
}

/// `labels PROGRAM`.
#[derive(Drop)]
pub struct LabelsCommand {
    /// The file of the program.
    pub program: Text,
}

/// `source PROGRAM ARG`, with `--tables FILE`, `--store NAME` and `--fuel N`.
#[derive(Drop)]
pub struct SourceCommand {
    /// The file of the program.
    pub program: Text,
    /// The argument of its session.
    pub arg: Text,
    /// The file of the rows that the session begins with, where it doesn't begin with none.
    pub tables: Option<Text>,
    /// The name of the store that the session runs over.
    pub store: Text,
    /// How many nodes the evaluation may enter.
    pub fuel: u64,
}
