//! The parts that expressions are made of: what a token begins, the operators by how tightly they bind, and what a part says
//! of its place, its tree and what it would take of the tokens behind it. `specs/` has a definition for each function.
#![tactic(auto)]

mod build;
mod build_forms;
mod chain;
mod operators;
mod part;
mod starts;

pub use build::{
    is_bare_name, label_of, make_bare_tag, make_binary, make_braced, make_called, make_extended,
    make_list, make_literal, make_named, make_negated, make_prefixed, make_projected, make_record,
    make_tagged, make_unit_tag, make_wrapped, part_of, plain_statement, takes_call,
    takes_comparison, takes_operator, var_statement,
};
pub use build_forms::{
    bare_case, goes_on, last_case, make_change, make_delete, make_if, make_insert, make_lambda,
    make_list_loop, make_query, make_switch, make_table_loop, make_update, make_where, named_case,
    no_cases, some_case,
};
pub use operators::{Level, eat_operator, next_is_operator};
pub use part::{Cases, Change, Ends, Part, Statement};
pub use starts::{Start, eat_begin, next_begins};
