//! Compares what the layers answer with what a case says.

use crate::answer::{
    Asked, asked_by, put_answer, put_names_answer, put_nesting_answer, put_token_answer,
};
use crate::calls::put_calls;
use crate::case::Case;
use crate::cuts::put_cuts;
use crate::line::Line;
use crate::message::{message_asked_by, put_message_answer};
use crate::schedule::put_schedule;
use case_files::{Judge, parted};
use lk_ast::NoMemory;
use std::alloc::Global;

/// The most sessions of a run.
const MOST_SESSIONS: u32 = 256;

/// Judges cases of texts: of programs and their trees, of messages, of schedules and of calls. The lines of a case are
/// - `<`, `+`, `repeat` and `bytes`: the text, as in all files of cases; in settings `before` and `behind`, a line each of what
///   stands round it,
/// - `tree T`: the program of the text; `body T`: the body of its one function; `type T`: the type that is written down of its
///   one function; with `spans` before it each node and each word with its place,
/// - `refused WHY`: why the text is no program; `declarations N`: how many it has; `statements N`: how many stand in its one
///   function,
/// - `tokens T`: the tokens of the text; `nesting light`: they don't nest too deep; `names bound`, or why they aren't,
/// - `> LINE`: a line that is printed of the program; `length N`: how many bytes are printed; `again the same`: that what is
///   printed is the same program,
/// - `cuts N`: the text can be cut behind so many of its tokens, and is refused at its end each time,
/// - `crlf`: the lines `<` behind it begin behind CR LF,
/// - `request VERDICT`, `reply VERDICT`: what a reader of requests or of replies answers to the text, in one piece, in two
///   pieces cut anywhere (of a longer text at 512 places, of a long one at 8), and byte by byte (where it isn't long): `more`, `done BODY` or
///   `done STATUS BODY`, `refused STATUS CODE` or `bad WHY`; `ended VERDICT`: the same of a reply behind which nothing comes,
/// - `written_request the same`, `written_reply the same`: the text is what is written for the message that it is,
/// - `schedule LINES`: what the text says as a schedule of 256 sessions, and `alone LINES` as one of one session; `bad N` instead:
///   the number of its first bad line,
/// - `memory ANSWERS`: what the calls of the text as a script of the executor answer over a store in memory (`put_calls`), and
///   `failing:3 ANSWERS` over one whose call with this number fails.
pub struct Trees;

impl Judge for Trees {
    fn differences(
        &self,
        alloc: Global,
        settings: &str,
        lines: &str,
    ) -> Result<Vec<String>, NoMemory> {
        let mut case = Case::new(alloc);
        case.take_lines(settings)?;
        case.take_lines(lines)?;
        judged(alloc, &case)
    }
}

/// A line for each answer that is another one than the case says.
fn judged(alloc: Global, case: &Case) -> Result<Vec<String>, NoMemory> {
    let mut told = Vec::new(alloc);
    let front = case.front(alloc)?;
    let mut text = front.clone()?;
    text.extend_from_slice(case.behind())?;
    for line in case.asked() {
        judge_line(alloc, &mut told, case, &text, line)?;
    }
    judge_printed(alloc, &mut told, case, &text)?;
    Ok(told)
}

/// Tells the answer to what a line asks of the text, where it is another one than the line says.
fn judge_line(
    alloc: Global,
    told: &mut Vec<String>,
    case: &Case,
    text: &[u8],
    line: &str,
) -> Result<(), NoMemory> {
    let (first, behind) = parted(line);
    let shows_places = first == "spans";
    let (word, want) = if shows_places {
        parted(behind)
    } else {
        (first, behind)
    };
    let mut answer = Line::new(alloc, shows_places);
    if put_asked_answer(alloc, &mut answer, case, text, word) {
        tell_answer(alloc, told, word, answer, want)
    } else {
        tell_line(alloc, told, line)
    }
}

/// Tells an answer that isn't this.
fn tell_answer(
    alloc: Global,
    told: &mut Vec<String>,
    word: &str,
    answer: Line,
    want: &str,
) -> Result<(), NoMemory> {
    let answer = answer.finished()?;
    if answer.as_str() != want {
        told.push(format!(in alloc; "{word} {answer}")?)?;
    }
    Ok(())
}

/// Tells a line that says nothing.
fn tell_line(alloc: Global, told: &mut Vec<String>, line: &str) -> Result<(), NoMemory> {
    told.push(format!(in alloc; "not understood: {line}")?)?;
    Ok(())
}

/// Puts the answer to a line with this word, and tells whether there is one.
fn put_asked_answer(
    alloc: Global,
    answer: &mut Line,
    case: &Case,
    text: &[u8],
    word: &str,
) -> bool {
    match word {
        "tokens" => put_token_answer(alloc, answer, text),
        "nesting" => put_nesting_answer(alloc, answer, text),
        "names" => put_names_answer(alloc, answer, text),
        "cuts" => put_cuts_answer(alloc, answer, case),
        "schedule" => put_schedule(alloc, answer, text, MOST_SESSIONS),
        "alone" => put_schedule(alloc, answer, text, 1),
        _ => return put_text_answer(alloc, answer, text, word),
    }
    true
}

/// Puts the answer to a line with this word that asks something of the text as a program, as a message or as a script.
fn put_text_answer(alloc: Global, answer: &mut Line, text: &[u8], word: &str) -> bool {
    if let Some(asked) = asked_by(word) {
        put_answer(alloc, answer, asked, text);
        return true;
    }
    match message_asked_by(word) {
        Some(asked) => put_message_answer(alloc, answer, asked, text),
        None => return put_calls(alloc, answer, text, word),
    }
    true
}

fn put_cuts_answer(alloc: Global, answer: &mut Line, case: &Case) {
    match case.front(alloc) {
        Ok(front) => put_cuts(alloc, answer, &front, case.behind()),
        Err(NoMemory) => answer.put_no_memory(),
    }
}

/// Tells what is printed of the program of the text, where it isn't what the case says, if it says that.
fn judge_printed(
    alloc: Global,
    told: &mut Vec<String>,
    case: &Case,
    text: &[u8],
) -> Result<(), NoMemory> {
    if case.printed().is_empty() {
        return tell_lack(alloc, told, case);
    }
    let mut answer = Line::new(alloc, false);
    put_answer(alloc, &mut answer, Asked::Printed, text);
    tell_printed(alloc, told, answer, case.printed())
}

/// Tells of a case without printed lines that no other line of it asks anything.
fn tell_lack(alloc: Global, told: &mut Vec<String>, case: &Case) -> Result<(), NoMemory> {
    if case.asked().is_empty() {
        told.push(String::from_str(alloc, "nothing is asked")?)?;
    }
    Ok(())
}

/// Tells what is printed that isn't this.
fn tell_printed(
    alloc: Global,
    told: &mut Vec<String>,
    answer: Line,
    want: &str,
) -> Result<(), NoMemory> {
    let answer = answer.finished()?;
    if answer.as_str() != want {
        told.push(format!(in alloc; "printed {answer:?}")?)?;
    }
    Ok(())
}
