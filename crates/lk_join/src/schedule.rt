//! Schedules.

ghost use Rattle.std.specs.List.{slice_split};
ghost use Rattle.std.specs.Prelude.{◌≡◌, ◌==◌, ◌<◌, ◌^◌, IfOk, Some, length, map};
ghost use Rattle.lk_join.specs.Schedule.{IsRead, is_skipped, line_by, line_for, line_for_all, line_of, lines_from, schedule_of};

use crate::error::ScheduleError;
use crate::line::Line;
use crate::number::{count_of, session_of};
use lk_ast::{List, NoMemory};
use std::alloc::Global;

/// The most bytes of a schedule.
const MOST_BYTES: usize = 4_194_304;

/// What a line begins with that one session follows.
const RUN: &[u8] = b"run";

const UP: &[u8] = b"up";

const DOWN: &[u8] = b"down";

/// What a line begins with that all sessions follow.
const AUTO: &[u8] = b"auto";

/// The schedule that a text is, of a run of so many sessions.
#[tactic(auto, unfolding(crate::specs::Schedule::schedule_of), using(crate::proofs::Lines::few_lines))]
pub fn read_schedule(alloc: Global, text: &[u8], sessions: u32) -> Result<List<Line>, ScheduleError>
    ensures { IsRead result (schedule_of sessions text.now) }
{
    if text.len() > MOST_BYTES {
        return Err(ScheduleError::BadSchedule(0));
    }
    let texts = cut_lines(alloc, text)?;
    read_lines(alloc, &texts, sessions)
}

/// The lines of a text.
fn cut_lines(alloc: Global, text: &[u8]) -> Result<Vec<&[u8]>, NoMemory>
    ensures { IfOk result (λ texts. map (λ x. x.now) texts.items ≡ slice_split (λ byte. byte == 10) text.now) }
{
    Ok(text.split(|byte| *byte == b'\n').collect(alloc)?)
}

/// What lines say, or the first that is bad.
#[tactic(auto, using(crate::proofs::Lines::one_line_more))]
fn read_lines(alloc: Global, texts: &[&[u8]], sessions: u32) -> Result<List<Line>, ScheduleError>
    requires few { length texts.now < 2 ^ 31 }
    ensures { IsRead result (lines_from sessions 1 (map (λ x. x.now) texts.now)) }
{
    let mut lines = List::new(alloc);
    let mut number = 1u32;
    for text in texts {
        if !is_skipped(text) {
            let Some(line) = line_of(alloc, text, sessions)? else {
                return Err(ScheduleError::BadSchedule(number));
            };
            lines.push(line)?;
        }
        number += 1;
    }
    Ok(lines)
}

/// Whether a line says nothing: it is empty or a comment.
fn is_skipped(text: &[u8]) -> bool
    ensures { result ≡ is_skipped text.now }
{
    match text {
        [] => true,
        [first, ..] => *first == b'#',
    }
}

/// What a line says, if it has a form.
fn line_of(alloc: Global, text: &[u8], sessions: u32) -> Result<Option<Line>, NoMemory>
    ensures { IfOk result (λ line. line ≡ line_of sessions text.now) }
{
    let words = cut_words(alloc, text)?;
    Ok(line_by(&words, sessions))
}

/// The words of a line.
fn cut_words(alloc: Global, text: &[u8]) -> Result<Vec<&[u8]>, NoMemory>
    ensures { IfOk result (λ words. map (λ x. x.now) words.items ≡ slice_split (λ byte. byte == 32) text.now) }
{
    Ok(text.split(|byte| *byte == b' ').collect(alloc)?)
}

/// What a line says, by its words.
fn line_by(words: &[&[u8]], sessions: u32) -> Option<Line>
    ensures { result ≡ line_by sessions (map (λ x. x.now) words.now) }
{
    match words {
        [form, count] => line_for_all(form, count_of(count)?),
        [form, session, count] => {
            let session = session_of(session, sessions)?;
            line_for(form, session, count_of(count)?)
        }
        _ => None,
    }
}

/// What a session does in a line of this form.
fn line_for(form: &[u8], session: u32, count: u64) -> Option<Line>
    ensures { result ≡ line_for form.now session count }
{
    if form == RUN {
        Some(Line::Run(session, count))
    } else if form == UP {
        Some(Line::Up(session, count))
    } else if form == DOWN {
        Some(Line::Down(session, count))
    } else {
        None
    }
}

/// What all sessions do in a line of this form.
fn line_for_all(form: &[u8], count: u64) -> Option<Line>
    ensures { result ≡ line_for_all form.now count }
{
    if form == AUTO {
        Some(Line::Auto(count))
    } else {
        None
    }
}
