//! Parts of inlined queries.

use lk_ast::{Base, Column, List, Text};
use lk_sql::SqlOp;

/// A part of an inlined query, which stands in a list of parts. It names its own parts by their numbers in the list, which are
/// below its own, and the names that it binds by the numbers of theirs.
pub enum Part {
    Lit(Base),
    /// A captured value, or the row of a `for`: what is bound to this part's number.
    Bound,
    /// A base: the second where the first is true, else the third.
    Case(u32, u32, u32),
    /// A list: the second where the first is true, else the third.
    If(u32, u32, u32),
    /// A record with these labels: the second part where the first is true, else the third.
    IfRow(List<Text>, u32, u32, u32),
    /// An operation on one base.
    One(SqlOp, u32),
    /// An operation on two bases.
    Two(SqlOp, u32, u32),
    /// Whether two records with these labels are equal.
    EqRows(List<Text>, u32, u32),
    /// Whether the list, of rows with these columns, is empty.
    Empty(List<Column>, u32),
    Record(List<Labelled>),
    /// The record with these labels: what is listed, and the rest from the last part.
    Extend(List<Text>, List<Labelled>, u32),
    /// What a record has under the label.
    Project(u32, Text),
    /// The list of these records.
    Items(List<u32>),
    /// One list behind the other.
    Append(u32, u32),
    /// The lists that the third part gives, one behind the other, for each row of the first, which is bound to the number of the
    /// second. A loop over a table is one over its rows.
    ForList(u32, u32, u32),
    /// The rows of a table with these columns.
    Table(Text, List<Text>),
    /// The list where the first is true, else the empty one.
    Where(u32, u32),
}

impl Drop for Part {
    fn drop(self) {
        match self {
            Self::Lit(_) => {}
            Self::Bound => {}
            Self::Case(_, _, _) => {}
            Self::If(_, _, _) => {}
            Self::IfRow(_, _, _, _) => {}
            Self::One(_, _) => {}
            Self::Two(_, _, _) => {}
            Self::EqRows(_, _, _) => {}
            Self::Empty(_, _) => {}
            Self::Record(_) => {}
            Self::Extend(_, _, _) => {}
            Self::Project(_, _) => {}
            Self::Items(_) => {}
            Self::Append(_, _) => {}
            Self::ForList(_, _, _) => {}
            Self::Table(_, _) => {}
            Self::Where(_, _) => {}
        }
    }
}

/// A label of a record, and the part that is under it.
pub struct Labelled {
    pub label: Text,
    pub part: u32,
}

impl Drop for Labelled {
    fn drop(self) {
        let Self { label: _, part: _ } = self;
    }
}
