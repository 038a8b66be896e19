//! What a program that runs cases does.

use crate::paragraphs::{Judge, told};
use std::rt::{Env, Files};
use std::{env, fs, io};

/// Judges the cases of the files that the words of the command line name, and prints what is told of them.
pub fn judge_files<R: Env + Files + Print + AllocGlobal, J: Judge>(
    rt: &R,
    judge: &J,
) -> io::Result<()> {
    let mut names = env::args(rt)?;
    let _own_name = names.next();
    for name in names {
        let text = fs::read_to_string(rt, name.as_str())?;
        match told(rt.alloc(), judge, name.as_str(), text.as_str()) {
            Ok(told) => print!(rt; "{}", told.as_str())?,
            Err(_) => println!(rt; "{}: out of memory", name.as_str())?,
        }
    }
    Ok(())
}
