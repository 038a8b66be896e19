//! The paragraphs of a file of cases, and what is told of them.

use lk_ast::NoMemory;
use std::alloc::Global;

/// What knows how cases come out.
pub trait Judge {
    /// A line for each way in which the case of these lines comes out otherwise than they say. The settings are the lines of
    /// the last paragraph of settings before it, or empty.
    fn differences(
        &self,
        alloc: Global,
        settings: &str,
        lines: &str,
    ) -> Result<Vec<String>, NoMemory>;
}

/// What a paragraph is.
enum Kind {
    Settings,
    Remark,
    Case,
}

/// Judges the cases of a file with this name and text: a line `NAME:LINE: DIFFERENCE` for each way in which one comes out
/// otherwise than it says, where LINE is the one where its paragraph begins, and at the end `NAME: N cases`.
pub fn told<J: Judge>(
    alloc: Global,
    judge: &J,
    name: &str,
    text: &str,
) -> Result<String, NoMemory> {
    let mut told = String::new(alloc);
    let mut settings = "";
    let mut cases = 0u64;
    let mut line = 1u64;
    for paragraph in text.split("\n\n") {
        match kind_of(paragraph) {
            Kind::Settings => settings = paragraph,
            Kind::Remark => {}
            Kind::Case => {
                cases = cases.wrapping_add(1);
                let differences = judge.differences(alloc, settings, paragraph)?;
                tell(alloc, &mut told, (name, line), &differences)?;
            }
        }
        line = line.wrapping_add(line_feeds(paragraph)).wrapping_add(2);
    }
    told.push_str(format!(in alloc; "{name}: {cases} cases\n")?.as_str())?;
    Ok(told)
}

/// Tells the differences of the case at this place.
fn tell(
    alloc: Global,
    told: &mut String,
    place: (&str, u64),
    differences: &[String],
) -> Result<(), NoMemory> {
    let (name, line) = place;
    for difference in differences {
        told.push_str(format!(in alloc; "{name}:{line}: {difference}\n")?.as_str())?;
    }
    Ok(())
}

/// What the paragraph of these lines is.
fn kind_of(lines: &str) -> Kind {
    if lines == "set" || lines.starts_with("set\n") {
        return Kind::Settings;
    }
    for line in lines.split('\n') {
        if !line.is_empty() && !line.starts_with("# ") {
            return Kind::Case;
        }
    }
    Kind::Remark
}

/// How many line feeds a text has.
fn line_feeds(text: &str) -> u64 {
    let mut count = 0u64;
    for byte in text.bytes() {
        if byte == b'\n' {
            count = count.wrapping_add(1);
        }
    }
    count
}
