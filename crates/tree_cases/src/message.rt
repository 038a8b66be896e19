//! What readers of messages answer to a text, however it is cut.

ghost use Rattle.std.specs.Prelude.{◌<◌};

use crate::line::Line;
use lk_ast::{Bytes, NoMemory};
use lk_http::{
    Fed, ReplyFed, ReplyKind, ReplyReader, RequestReader, is_status, write_reply, write_request,
};
use std::alloc::Global;
use std::str;

/// A text that is fed byte by byte, and cut at many places, has no more bytes.
const SHORT: usize = 10_000;

/// How many places a short text is cut at, and a longer one.
const CUTS: usize = 512;

const FEW_CUTS: usize = 8;

/// A body of more bytes is told by their number.
const SHOWN: usize = 200;

/// What is asked of a text as a message.
#[derive(Clone, Copy)]
pub enum Asked {
    /// The verdict on it as a request.
    Request,
    /// The verdict on it as a reply.
    Reply,
    /// The verdict on it as a reply behind which no more bytes come.
    Ended,
    /// Whether it is what is written for the request that it is.
    WrittenRequest,
    /// Whether it is what is written for the reply that it is.
    WrittenReply,
}

/// What is asked by a line with this first word, if it asks that of a message.
pub fn message_asked_by(word: &str) -> Option<Asked> {
    match word {
        "request" => Some(Asked::Request),
        "reply" => Some(Asked::Reply),
        "ended" => Some(Asked::Ended),
        "written_request" => Some(Asked::WrittenRequest),
        "written_reply" => Some(Asked::WrittenReply),
        _ => None,
    }
}

/// Puts what is asked of a text as a message.
pub fn put_message_answer(alloc: Global, line: &mut Line, asked: Asked, text: &[u8]) {
    match answer(alloc, asked, text) {
        Ok(answer) => line.put(answer.as_str()),
        Err(NoMemory) => line.put_no_memory(),
    }
}

fn answer(alloc: Global, asked: Asked, text: &[u8]) -> Result<String, NoMemory> {
    match asked {
        Asked::WrittenRequest => written_request(alloc, text),
        Asked::WrittenReply => written_reply(alloc, text),
        _ => verdict_of_cuts(alloc, asked, text),
    }
}

/// The verdict on a text, if it is the same however the text is cut; else that and the other one.
fn verdict_of_cuts(alloc: Global, asked: Asked, text: &[u8]) -> Result<String, NoMemory> {
    let whole = verdict(alloc, asked, text, text.len())?;
    for cut in (0..text.len()).step_by(step_of(text.len())) {
        let other = verdict(alloc, asked, text, cut)?;
        if other.as_str() != whole.as_str() {
            return Ok(format!(in alloc; "{whole}, but cut at {cut} {other}")?);
        }
    }
    Ok(whole)
}

/// How far apart the places are at which a text of this length is cut.
fn step_of(len: usize) -> usize
    ensures { 0 < result }
{
    if len <= SHORT {
        len / CUTS + 1
    } else {
        len / FEW_CUTS + 1
    }
}

/// The verdict on a text that is cut at this place. Where that is its start, it is fed byte by byte, if it is short.
fn verdict(alloc: Global, asked: Asked, text: &[u8], cut: usize) -> Result<String, NoMemory> {
    let size = if cut == 0 && text.len() <= SHORT {
        1
    } else {
        text.len().max(1)
    };
    let cut = cut.min(text.len());
    match asked {
        Asked::Request => request_verdict(alloc, &text[..cut], &text[cut..], size),
        Asked::Reply => reply_verdict(alloc, &text[..cut], &text[cut..], size),
        _ => ended_verdict(alloc, &text[..cut], &text[cut..], size),
    }
}

/// The verdict of a reader of requests that is fed these bytes and then the others, so many at a time.
fn request_verdict(
    alloc: Global,
    first: &[u8],
    others: &[u8],
    size: usize,
) -> Result<String, NoMemory>
    requires { 0 < size }
{
    let mut reader = RequestReader::new(alloc)?;
    let mut verdict = reader.feed(alloc, first)?;
    for piece in others.chunks(size) {
        verdict = reader.feed(alloc, piece)?;
    }
    request_line(alloc, &verdict)
}

/// The same of a reader of replies.
fn reply_verdict(
    alloc: Global,
    first: &[u8],
    others: &[u8],
    size: usize,
) -> Result<String, NoMemory>
    requires { 0 < size }
{
    let mut reader = ReplyReader::new(alloc)?;
    let mut verdict = reader.feed(alloc, first)?;
    for piece in others.chunks(size) {
        verdict = reader.feed(alloc, piece)?;
    }
    reply_line(alloc, &verdict)
}

/// The same where no more bytes come.
fn ended_verdict(
    alloc: Global,
    first: &[u8],
    others: &[u8],
    size: usize,
) -> Result<String, NoMemory>
    requires { 0 < size }
{
    let mut reader = ReplyReader::new(alloc)?;
    let _verdict = reader.feed(alloc, first)?;
    for piece in others.chunks(size) {
        let _verdict = reader.feed(alloc, piece)?;
    }
    let verdict = reader.finish(alloc)?;
    reply_line(alloc, &verdict)
}

/// The line of a verdict on a request.
fn request_line(alloc: Global, verdict: &Fed) -> Result<String, NoMemory> {
    match verdict {
        Fed::More => Ok(String::from_str(alloc, "more")?),
        Fed::Done(body) => done_line(alloc, "done", body),
        Fed::Refused(why) => Ok(format!(in alloc; "refused {} {}", why.status(), why.code())?),
    }
}

/// The line of a verdict on a reply.
fn reply_line(alloc: Global, verdict: &ReplyFed) -> Result<String, NoMemory> {
    match verdict {
        ReplyFed::More => Ok(String::from_str(alloc, "more")?),
        ReplyFed::Done(status, body) => {
            let done = format!(in alloc; "done {status}")?;
            done_line(alloc, done.as_str(), body)
        }
        ReplyFed::Bad(why) => Ok(format!(in alloc; "bad {}", word_of(*why))?),
    }
}

fn word_of(kind: ReplyKind) -> &'static str {
    match kind {
        ReplyKind::Head => "Head",
        ReplyKind::Length => "Length",
        ReplyKind::Large => "Large",
        ReplyKind::Cut => "Cut",
        ReplyKind::Body => "Body",
    }
}

/// The line of a message that is there: these words, and its body.
fn done_line(alloc: Global, words: &str, body: &Bytes) -> Result<String, NoMemory> {
    if body.is_empty() {
        return Ok(format!(in alloc; "{words} nothing")?);
    }
    if body.len() > SHOWN {
        return Ok(format!(in alloc; "{words} {} bytes", body.len())?);
    }
    match str::from_utf8(body.as_slice()) {
        Ok(text) => Ok(format!(in alloc; "{words} {text}")?),
        Err(_) => Ok(format!(in alloc; "{words} no text")?),
    }
}

/// Whether a text is what is written for the request that it is.
fn written_request(alloc: Global, text: &[u8]) -> Result<String, NoMemory> {
    let mut reader = RequestReader::new(alloc)?;
    match reader.feed(alloc, text)? {
        Fed::Done(body) => {
            let written = write_request(alloc, body.as_slice())?;
            sameness(alloc, written.as_slice() == text)
        }
        Fed::More => sameness(alloc, false),
        Fed::Refused(_) => sameness(alloc, false),
    }
}

/// Whether a text is what is written for the reply that it is.
fn written_reply(alloc: Global, text: &[u8]) -> Result<String, NoMemory> {
    let mut reader = ReplyReader::new(alloc)?;
    match reader.feed(alloc, text)? {
        ReplyFed::Done(status, body) => {
            let is_same = is_written(alloc, status, body.as_slice(), text)?;
            sameness(alloc, is_same)
        }
        ReplyFed::More => sameness(alloc, false),
        ReplyFed::Bad(_) => sameness(alloc, false),
    }
}

/// Whether a text is what is written for a reply of this status and this body.
fn is_written(alloc: Global, status: u16, body: &[u8], text: &[u8]) -> Result<bool, NoMemory> {
    if !is_status(status) {
        return Ok(false);
    }
    let written = write_reply(alloc, status, body)?;
    Ok(written.as_slice() == text)
}

fn sameness(alloc: Global, is_same: bool) -> Result<String, NoMemory> {
    if is_same {
        Ok(String::from_str(alloc, "the same")?)
    } else {
        Ok(String::from_str(alloc, "another text")?)
    }
}
