//! Runs the cases of texts, their trees, messages, schedules and calls of the executor of the files that its words name. It prints how
//! many there are in each file, and each answer that is another one than the case says.
#![tactic(auto)]

mod answer;
mod calls;
mod case;
mod cuts;
mod expression;
mod judge;
mod label;
mod line;
mod made;
mod message;
mod named;
mod program;
mod refusal;
mod schedule;
mod signature;
mod swap;
mod token;

use crate::judge::Trees;
use case_files::judge_files;
use std::io;

fn main(rt: HostRuntime) -> io::Result<()> {
    judge_files(&rt, &Trees)
}
