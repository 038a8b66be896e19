//! The syntax trees, values and events of the language, as plain data.
//!
//! Contracts see every type here as plain data: the owners `List`, `Boxed`, `Shared`, `Text` and `Bytes` are seen as
//! what they hold and never as where they hold it, so a copy of a value *is* that value to a contract.
#![tactic(auto)]

mod boxed;
mod bytes;
mod client_end;
mod copies;
mod declaration;
mod event;
mod expression;
mod functions;
mod json;
mod limits;
mod list;
mod memory;
mod operators;
mod place;
mod program_copies;
mod rows;
mod same;
mod shared;
mod signature;
mod statements;
mod table;
mod tables;
mod text;
mod token;
mod tree_copies;
mod value;
mod words;

pub use boxed::Boxed;
pub use bytes::Bytes;
pub use client_end::ClientEnd;
pub use copies::{copy_base, copy_row, copy_rows, copy_value, copy_values};
pub use declaration::{ColumnDecl, Decl, FunDef, Program, TableDecl};
pub use event::{Event, ReadEvent, Trap, WriteEvent};
pub use expression::{Case, ChangeExpr, Expr, LambdaExpr, LastCase, Node, PartExpr, SortKey};
pub use functions::{find_function, functions_in, functions_of, is_main, main_of};
pub use json::{holds_function, value_text};
pub use limits::{MESSAGE_DEPTH, MESSAGE_LIMIT, MOST_ROWS};
pub use list::List;
pub use memory::NoMemory;
pub use operators::{with_operand, with_operands};
pub use place::{Loc, Span, Word};
pub use program_copies::copy_program;
pub use rows::{row_value, rows_value};
pub use same::{base_order, equal};
pub use shared::Shared;
pub use signature::{Sig, SigField, SigType};
pub use statements::{Statement, first_statement, make_chain, statement_node};
pub use table::{Base, BaseKind, Cell, Column, Row, TableDef, TableRows};
pub use tables::{all_fit, is_of_kind, row_fits};
pub use text::Text;
pub use token::{Token, TokenKind};
pub use tree_copies::copy_expr;
pub use value::{Field, FunValue, Value};
pub use words::{copy_keys, copy_some, copy_word, copy_words};
