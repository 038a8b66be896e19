//! The lines of a case, with all that stands there for more.

use case_files::parted;
use lk_ast::NoMemory;
use std::alloc::Global;

/// The lines of the settings and of a case, with each piece and each line as often as it stands for.
pub fn expanded(alloc: Global, settings: &str, lines: &str) -> Result<String, NoMemory> {
    let mut text = String::new(alloc);
    push_lines(&mut text, settings)?;
    push_lines(&mut text, lines)?;
    Ok(text)
}

fn push_lines(text: &mut String, lines: &str) -> Result<(), NoMemory> {
    for line in lines.split('\n') {
        push_line(text, line)?;
    }
    Ok(())
}

/// `many 3 LINE`, or another line.
fn push_line(text: &mut String, line: &str) -> Result<(), NoMemory> {
    let Some(rest) = line.strip_prefix("many ") else {
        return push_single(text, line);
    };
    let (count, line) = parted(rest);
    match count.parse::<u64>() {
        Ok(count) => push_repeated(text, count, line, "\n"),
        Err(_) => push_single(text, line),
    }
}

/// A line with each `<3 PIECE>` in it as often as it stands for.
fn push_single(text: &mut String, line: &str) -> Result<(), NoMemory> {
    let mut is_first = true;
    for part in line.split('<') {
        if is_first {
            text.push_str(part)?;
        } else {
            push_part(text, part)?;
        }
        is_first = false;
    }
    text.push('\n')?;
    Ok(())
}

/// What stands behind a `<`.
fn push_part(text: &mut String, part: &str) -> Result<(), NoMemory> {
    let (inside, behind) = part.split_once('>').unwrap_or((part, ""));
    let (count, piece) = parted(inside);
    match count.parse::<u64>() {
        Ok(count) => push_repeated(text, count, piece, "")?,
        Err(_) => text.push_str(part)?,
    }
    text.push_str(behind)?;
    Ok(())
}

/// A piece so many times, with something behind each.
fn push_repeated(text: &mut String, count: u64, piece: &str, end: &str) -> Result<(), NoMemory> {
    for number in 0..count {
        push_numbered(text, number, piece)?;
        text.push_str(end)?;
    }
    Ok(())
}

/// A piece with this number for `{k}`, and the one behind it for `{k+1}`.
fn push_numbered(text: &mut String, number: u64, piece: &str) -> Result<(), NoMemory> {
    let mut is_first = true;
    for part in piece.split("{k") {
        if is_first {
            text.push_str(part)?;
        } else {
            push_number(text, number, part)?;
        }
        is_first = false;
    }
    Ok(())
}

/// What stands behind a `{k`.
fn push_number(text: &mut String, number: u64, part: &str) -> Result<(), NoMemory> {
    if let Some(rest) = part.strip_prefix("+1}") {
        let next = number.wrapping_add(1);
        write!(text, "{next}{rest}")?;
    } else if let Some(rest) = part.strip_prefix('}') {
        write!(text, "{number}{rest}")?;
    } else {
        write!(text, "{{k{part}")?;
    }
    Ok(())
}
