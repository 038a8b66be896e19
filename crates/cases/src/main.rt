//! Runs the cases of the files that its words name through the top call, over files, a sink and stores in memory. It prints
//! how many cases there are in each file, and each that comes out otherwise than its paragraph says.
#![tactic(auto)]

mod case;
mod changes;
mod compare;
mod forms;
mod ground;
mod instances;
mod reader;
mod run;
mod runner;
mod steps;

use case_files::{Judge, judge_files};
use lk_ast::NoMemory;
use std::alloc::Global;
use std::io;

/// The judge of cases of the top call.
struct Cases;

impl Judge for Cases {
    fn differences(
        &self,
        alloc: Global,
        settings: &str,
        lines: &str,
    ) -> Result<Vec<String>, NoMemory> {
        if settings.starts_with("set\nmode ground") {
            return ground::differences(alloc, settings, lines);
        }
        runner::differences(alloc, settings, lines)
    }
}

fn main(rt: HostRuntime) -> io::Result<()> {
    judge_files(&rt, &Cases)
}
