//! Judges cases about types, which no command of the program `links` shows: equations of types and what solves them, types as
//! text, and what types become once it is known what stands for their variables.
//!
//! What a case is given are lines `equation TYPE = TYPE`, and `late` or `never` in place of `equation` where sizes needn't matter
//! everywhere (`Sizing` of lk_unify), and one line `where TYPE = TYPE`, which says what stands for the variables of the type on its
//! left: no variable is on its right. Each other line asks something, and says what is wanted:
//! - `solvable`, `unsolvable 2` and `too large 2`: how the equations come out, of which the first has the number 0,
//! - `solution TYPE = TYPE`: what the type on the left becomes under the most general solution of the equations,
//! - `sides TYPE; TYPE`: what the sides of each equation become under it,
//! - `printed TYPE = TYPE`: how the type on the left is printed,
//! - `ground TYPE = TYPE`: what the type on the left becomes where stands for its variables what `where` says,
//! - `effects TYPE = print,trap`: the effects of what it becomes, `none` where it has none,
//! - `kinds TYPE = flat query`: which of `base`, `flat`, `list`, `query` and `function` that is, `none` where it is none of these.
//!
//! In all lines `<3 PIECE>` stands for the piece three times, and `many 3 LINE` is the line three times. In a piece and in such a
//! line `{k}` is the number of the time, from 0 on, and `{k+1}` the next one.
#![tactic(auto)]

mod expansion;
mod grounds;
mod judge;
mod reader;
mod solving;

use crate::judge::Types;
use case_files::judge_files;
use std::io;

fn main(rt: HostRuntime) -> io::Result<()> {
    judge_files(&rt, &Types)
}
