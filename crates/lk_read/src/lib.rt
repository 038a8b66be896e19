//! Readers of tokens: why reading stops, tests of the next token, and in `specs/` and `proofs/` the combinators that the
//! readers of signatures and programs are made of, with their laws.
#![tactic(auto)]

mod eat;
mod stop;
mod tables;
mod tokens;

pub use eat::{eat_any_tag, eat_name, eat_sign, eat_tag, eat_word};
pub use stop::Stop;
pub use tables::{is_keyword, is_one_of};
pub use tokens::{
    is_any_tag, is_name, is_sign, is_tag, is_word, next_is_any_tag, next_is_name, next_is_sign,
    next_is_tag, next_is_word, word_of,
};
