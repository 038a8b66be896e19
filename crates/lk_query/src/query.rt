//! Inlined queries and changes of tables.

ghost use Rattle.lk_query.specs.Order.{AreOrdered};
ghost use Rattle.std.specs.Option.{option_copied};
ghost use Rattle.std.specs.Prelude.{◌≡◌, slice_get};

use crate::part::{Labelled, Part};
use lk_ast::{BaseKind, Column, List, Text};
use lk_sql::Key;
use std::marker::Model;

/// What a query or a change captures: a base of this kind, or a record with these columns.
pub enum Captured {
    Base(BaseKind),
    Row(List<Column>),
}

impl Drop for Captured {
    fn drop(self) {
        match self {
            Self::Base(_) => {}
            Self::Row(_) => {}
        }
    }
}

/// Parts, each of which stands behind its own. Contracts see the list of them.
#[derive(Drop)]
pub struct OrderedParts {
    list: List<Part>,
}

impl Model for OrderedParts {
    ghost use Rattle.lk_query.specs.Order.{AreOrdered};
    ghost use Rattle.lk_query.specs.declared.part.Part.{Part};
    ghost use Rattle.std.specs.Prelude.{List};

    ghost Value = { List Part };

    ghost view = { λ parts. parts.list };

    ghost invariant = { λ parts. AreOrdered parts.list };
}

impl OrderedParts {
    /// These parts, which are in order.
    pub fn new(list: List<Part>) -> OrderedParts
        requires { AreOrdered list }
        ensures { result ≡ list }
    {
        OrderedParts { list }
    }

    /// All of them.
    pub fn as_slice(&self) -> &[Part]
        ensures parts { result.now ≡ self.now }
        ensures ordered { AreOrdered self.now }
    {
        self.list.as_slice()
    }

    /// The part of that number, if there is one.
    pub fn get(&self, at: u32) -> Option<&Part>
        ensures { option_copied result ≡ slice_get self.now at }
    {
        self.list.get(at as usize)
    }
}

/// A query in which the bodies of functions stand in the places of their calls, or the reading of a table.
#[derive(Drop)]
pub struct Query {
    pub parts: OrderedParts,
    /// The number of the part that gives its rows.
    pub root: u32,
    /// What it captures, in byte order of the names: the value with number n is bound to part n.
    pub captured: List<Captured>,
    /// The columns of its rows.
    pub columns: List<Column>,
    pub keys: List<Key>,
}

/// An update or, where it sets no column, a deletion, in which the bodies of functions stand in the places of their calls.
/// Part 0 is bound to the row that may change.
#[derive(Drop)]
pub struct InlinedChange {
    pub parts: OrderedParts,
    /// The labels of its table's columns, in byte order.
    pub labels: List<Text>,
    /// What it captures, in byte order of the names: the value with number n is bound to part n + 1.
    pub captured: List<Captured>,
    /// The number of the part that says whether a row changes.
    pub cond: u32,
    /// What columns are set to.
    pub sets: List<Labelled>,
}

/// What stands at the place of a query, a reading of a table, an update or a deletion.
#[derive(Drop)]
pub enum Inlined {
    Query(Query),
    Change(InlinedChange),
}
