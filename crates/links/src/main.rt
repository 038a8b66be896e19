//! The program `links`: one call, which does all that it does.
#![tactic(auto)]

use lk_process::run;
use std::process::ExitCode;

fn main(rt: HostRuntime) -> ExitCode {
    run(&rt)
}
