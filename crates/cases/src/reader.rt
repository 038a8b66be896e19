//! Reads a case, line by line.

use crate::case::Case;
use case_files::parted;
use lk_ast::NoMemory;
use std::alloc::Global;

/// The case of these lines, which begins as the settings say. The lines that say nothing are told.
pub fn read_case(
    alloc: Global,
    settings: &str,
    lines: &str,
    told: &mut Vec<String>,
) -> Result<Case, NoMemory> {
    let mut case = Case::new(alloc)?;
    read_lines(alloc, &mut case, settings, told)?;
    case.end_settings();
    read_lines(alloc, &mut case, lines, told)?;
    Ok(case)
}

/// Takes what these lines say.
fn read_lines(
    alloc: Global,
    case: &mut Case,
    lines: &str,
    told: &mut Vec<String>,
) -> Result<(), NoMemory> {
    for line in lines.split('\n') {
        let (word, rest) = parted(line);
        let is_taken = case.take(word, rest)?;
        if !is_taken {
            told.push(format!(in alloc; "not understood: {line}")?)?;
        }
    }
    Ok(())
}
