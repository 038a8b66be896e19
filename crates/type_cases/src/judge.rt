//! What is told of a case: each line that doesn't say what is the case, and what it would have to say.

use crate::expansion::expanded;
use crate::grounds::{Asked, ground_answer};
use crate::reader::{is_equation, read_type};
use crate::solving::{sides, sizing_of, solution, type_text, verdict};
use case_files::{Judge, parted};
use lk_ast::NoMemory;
use std::alloc::Global;

/// What knows how cases about types come out.
pub struct Types;

/// What a line is, by its first word.
#[derive(Clone, Copy)]
enum Line {
    /// It says nothing that could be wrong.
    Remark,
    /// An equation.
    Given,
    Verdict,
    Sides,
    /// `WORD TYPE = ANSWER`.
    Question(Question),
    Unknown,
}

#[derive(Clone, Copy)]
enum Question {
    Solution,
    Printed,
    Ground(Asked),
}

fn line_of(word: &str) -> Line {
    match word {
        "" | "#" | "set" => Line::Remark,
        "where" => Line::Given,
        "solvable" | "unsolvable" | "too" => Line::Verdict,
        "sides" => Line::Sides,
        _ => match question_of(word) {
            Some(question) => Line::Question(question),
            None => equation_line(word),
        },
    }
}

fn equation_line(word: &str) -> Line {
    match sizing_of(word) {
        Some(_) => Line::Given,
        None => Line::Unknown,
    }
}

fn question_of(word: &str) -> Option<Question> {
    match word {
        "solution" => Some(Question::Solution),
        "printed" => Some(Question::Printed),
        "ground" => Some(Question::Ground(Asked::Type)),
        "effects" => Some(Question::Ground(Asked::Effects)),
        "kinds" => Some(Question::Ground(Asked::Kinds)),
        _ => None,
    }
}

impl Judge for Types {
    /// Each line that is wrong, as it would be right.
    fn differences(
        &self,
        alloc: Global,
        settings: &str,
        lines: &str,
    ) -> Result<Vec<String>, NoMemory> {
        let case = expanded(alloc, settings, lines)?;
        let mut differences = unasked(alloc, case.as_str())?;
        for line in case.as_str().split('\n') {
            judge_line(alloc, &mut differences, case.as_str(), line)?;
        }
        Ok(differences)
    }
}

/// What is told of a case that asks nothing.
fn unasked(alloc: Global, case: &str) -> Result<Vec<String>, NoMemory> {
    let mut differences = Vec::new(alloc);
    if !asks(case) {
        differences.push(String::from_str(alloc, "nothing is asked")?)?;
    }
    Ok(differences)
}

/// Adds what a line of a case would have to be, where it is something else.
fn judge_line(
    alloc: Global,
    differences: &mut Vec<String>,
    case: &str,
    line: &str,
) -> Result<(), NoMemory> {
    let right = right_line(alloc, case, line)?;
    if right.as_str() != line {
        differences.push(right)?;
    }
    Ok(())
}

/// Whether a line of a case asks something.
fn asks(case: &str) -> bool {
    for line in case.split('\n') {
        let (word, _rest) = parted(line);
        if matches!(
            line_of(word),
            Line::Verdict | Line::Sides | Line::Question(_)
        ) {
            return true;
        }
    }
    false
}

/// What a line of a case would have to be.
fn right_line(alloc: Global, case: &str, line: &str) -> Result<String, NoMemory> {
    let (word, rest) = parted(line);
    match line_of(word) {
        Line::Remark => Ok(String::from_str(alloc, line)?),
        Line::Given => given_line(alloc, line, rest),
        Line::Verdict => verdict(alloc, case),
        Line::Sides => sides_line(alloc, case),
        Line::Question(question) => question_line(alloc, case, question, line),
        Line::Unknown => not_understood(alloc, line),
    }
}

fn not_understood(alloc: Global, line: &str) -> Result<String, NoMemory> {
    Ok(format!(in alloc; "not understood: {line}")?)
}

fn given_line(alloc: Global, line: &str, equation: &str) -> Result<String, NoMemory> {
    if is_equation(alloc, equation) {
        return Ok(String::from_str(alloc, line)?);
    }
    not_understood(alloc, line)
}

fn sides_line(alloc: Global, case: &str) -> Result<String, NoMemory> {
    let sides = sides(alloc, case)?;
    Ok(format!(in alloc; "sides {sides}")?)
}

/// A question with its right answer.
fn question_line(
    alloc: Global,
    case: &str,
    question: Question,
    line: &str,
) -> Result<String, NoMemory> {
    let Some((asked, _answer)) = line.split_once(" = ") else {
        return not_understood(alloc, line);
    };
    let (_word, shown) = parted(asked);
    match answer(alloc, case, question, shown)? {
        Some(answer) => Ok(format!(in alloc; "{asked} = {answer}")?),
        None => not_understood(alloc, line),
    }
}

fn answer(
    alloc: Global,
    case: &str,
    question: Question,
    shown: &str,
) -> Result<Option<String>, NoMemory> {
    match question {
        Question::Solution => solution(alloc, case, shown),
        Question::Printed => printed(alloc, shown),
        Question::Ground(asked) => ground_answer(alloc, case, asked, shown),
    }
}

/// How a type is printed, none where the text is no type.
fn printed(alloc: Global, shown: &str) -> Result<Option<String>, NoMemory> {
    match read_type(alloc, shown) {
        None => Ok(None),
        Some(ty) => Ok(Some(type_text(alloc, &ty)?)),
    }
}
