//! The reader of replies.

ghost use Rattle.std.specs.Prelude.{◌≡◌, ◌<◌, ◌≤◌, ◌*◌, ◌++◌, [], List, ℕ, All, IfOk, OnErr, Some, None, Ok, Err, codes, drop, length, map, nat_lt, if◌then◌else◌};
ghost use Rattle.std.specs.Option.{option_map};
ghost use Rattle.httparse.specs.Grammar.{ResponseHead, status_code};
ghost use Rattle.httparse.specs.Spans.{IsHeaderWithin, IsResponseAt, IsResponseWithin, header_bytes};
ghost use Rattle.lk_http.specs.Fields.{length_by, values_in};
ghost use Rattle.lk_http.specs.Limits.{head_limit};
ghost use Rattle.lk_http.specs.Reading.{FindsReply, HasReadReply, KeepsReply, ended, placed, reply_answer, reply_body};
ghost use Rattle.lk_http.specs.Replies.{kind_of, length_or_kind, replies};
ghost use Rattle.lk_http.specs.Verdicts.{IsVerdict};

use crate::fault::LengthFault;
use crate::fields::body_length;
use crate::limits::{FIELD_LIMIT, HEAD_LIMIT, ROOM};
use crate::place::BodyPlace;
use crate::progress::ReplyProgress;
use crate::verdict::{ReplyFed, ReplyKind};
use httparse::Status;
use httparse::spans::{EMPTY_HEADER_SPAN, HeaderSpan, ResponseSpans, parse_response};
use lk_ast::{Bytes, NoMemory};
use std::alloc::Global;
use std::marker::Model;
use std::mem;

/// A reader of one reply, which comes in pieces.
#[derive(Drop)]
pub struct ReplyReader {
    progress: ReplyProgress,
    room: Vec<HeaderSpan>,
}

impl Model for ReplyReader {
    ghost use Rattle.std.specs.Prelude.{◌≡◌, length};
    ghost use Rattle.lk_http.specs.declared.progress.ReplyProgress.{ReplyProgress};

    ghost Value = { ReplyProgress };

    ghost view = { λ reader. reader.progress };

    ghost invariant = { λ reader. length reader.room.items ≡ 2_731 };
}

impl ReplyReader {
    /// A reader that was given no byte yet.
    pub fn new(alloc: Global) -> Result<ReplyReader, NoMemory>
        ensures { IfOk result (λ reader. HasReadReply reader []) }
    {
        Ok(ReplyReader {
            progress: ReplyProgress::Head(Bytes::new(alloc)),
            room: vec![in alloc; EMPTY_HEADER_SPAN; ROOM]?,
        })
    }

    /// Takes the next piece, and answers the verdict on all bytes so far. A verdict but `More` is kept from then on, whatever
    /// comes, and where memory ran out the reader fails from then on.
    pub fn feed(&mut self, alloc: Global, piece: &[u8]) -> Result<ReplyFed, NoMemory>
        ensures read { (bytes : List ℕ) → HasReadReply self.old bytes → HasReadReply self.new (bytes ++ piece.now) }
        ensures verdict { (bytes : List ℕ) → HasReadReply self.old bytes
            → IfOk result (IsVerdict replies (bytes ++ piece.now)) }
        ensures told { IfOk result (λ verdict. reply_answer self.new ≡ Some verdict) }
        ensures failed { OnErr result (self.new ≡ ReplyProgress.Broken) }
        ensures kept { KeepsReply self.old self.new }
    {
        let progress = mem::replace(&mut self.progress, ReplyProgress::Broken);
        let next = step(alloc, progress, self.room.as_mut_slice(), piece)?;
        let verdict = answer(alloc, &next)?;
        self.progress = next;
        Ok(verdict)
    }

    /// The verdict where no more bytes come: `Bad(Cut)` where more are needed.
    pub fn finish(&self, alloc: Global) -> Result<ReplyFed, NoMemory>
        ensures verdict { (bytes : List ℕ) → HasReadReply self.now bytes
            → IfOk result (λ last. (verdict : ReplyFed) × IsVerdict replies bytes verdict × (last ≡ ended verdict)) }
        ensures told { IfOk result (λ last. option_map ended (reply_answer self.now) ≡ Some last) }
    {
        match answer(alloc, &self.progress)? {
            ReplyFed::More => Ok(ReplyFed::Bad(ReplyKind::Cut)),
            ReplyFed::Done(status, body) => Ok(ReplyFed::Done(status, body)),
            ReplyFed::Bad(why) => Ok(ReplyFed::Bad(why)),
        }
    }
}

/// What is answered there, a copy of the verdict.
fn answer(alloc: Global, progress: &ReplyProgress) -> Result<ReplyFed, NoMemory>
    ensures { IfOk result (λ verdict. reply_answer progress.now ≡ Some verdict) }
{
    match progress {
        ReplyProgress::Head(_) => Ok(ReplyFed::More),
        ReplyProgress::Body(_, _, _) => Ok(ReplyFed::More),
        ReplyProgress::Over(verdict) => copy_verdict(alloc, verdict),
        ReplyProgress::Broken => Err(NoMemory),
    }
}

/// A copy of a verdict.
fn copy_verdict(alloc: Global, verdict: &ReplyFed) -> Result<ReplyFed, NoMemory>
    ensures { IfOk result (λ copy. copy ≡ verdict.now) }
{
    match verdict {
        ReplyFed::More => Ok(ReplyFed::More),
        ReplyFed::Done(status, body) => Ok(ReplyFed::Done(
            *status,
            Bytes::from_slice(alloc, body.as_slice())?,
        )),
        ReplyFed::Bad(why) => Ok(ReplyFed::Bad(*why)),
    }
}

/// Where a reader stands after one more piece.
fn step(
    alloc: Global,
    progress: ReplyProgress,
    room: &mut [HeaderSpan],
    piece: &[u8],
) -> Result<ReplyProgress, NoMemory>
    requires { head_limit < 3 * length room.old }
    ensures read { (bytes : List ℕ) → HasReadReply progress bytes
        → IfOk result (λ next. HasReadReply next (bytes ++ piece.now)) }
    ensures kept { IfOk result (KeepsReply progress) }
{
    match progress {
        ReplyProgress::Head(bytes) => Ok(more_head(alloc, bytes, room, piece)?),
        ReplyProgress::Body(status, behind, len) => {
            Ok(more_body(alloc, status, behind, len, piece)?)
        }
        ReplyProgress::Over(verdict) => Ok(ReplyProgress::Over(verdict)),
        ReplyProgress::Broken => Err(NoMemory),
    }
}

/// Where it stands after one more piece where no head has come yet.
fn more_head(
    alloc: Global,
    mut bytes: Bytes,
    room: &mut [HeaderSpan],
    piece: &[u8],
) -> Result<ReplyProgress, NoMemory>
    requires { head_limit < 3 * length room.old }
    ensures { IfOk result (λ next. HasReadReply next (bytes ++ piece.now)) }
{
    bytes.push_slice(piece)?;
    match find_body(bytes.as_slice(), room) {
        Ok(None) => Ok(ReplyProgress::Head(bytes)),
        Ok(Some((status, place))) => begin_body(alloc, status, bytes.as_slice(), place),
        Err(why) => Ok(ReplyProgress::Over(ReplyFed::Bad(why))),
    }
}

/// Where it stands behind a head that has come.
fn begin_body(
    alloc: Global,
    status: u16,
    bytes: &[u8],
    place: BodyPlace,
) -> Result<ReplyProgress, NoMemory>
    requires { place.start ≤ length bytes.now }
    ensures { IfOk result (λ next. next ≡ reply_body status place.len (drop place.start bytes.now)) }
{
    let behind = Bytes::from_slice(alloc, &bytes[place.start..])?;
    body_of(alloc, status, behind, place.len)
}

/// Where it stands after one more piece behind a head.
fn more_body(
    alloc: Global,
    status: u16,
    mut behind: Bytes,
    len: usize,
    piece: &[u8],
) -> Result<ReplyProgress, NoMemory>
    ensures { IfOk result (λ next. next ≡ reply_body status len (behind ++ piece.now)) }
{
    behind.push_slice(piece)?;
    body_of(alloc, status, behind, len)
}

/// Where it stands behind a head that announces so many bytes, with these bytes behind it.
fn body_of(alloc: Global, status: u16, behind: Bytes, len: usize) -> Result<ReplyProgress, NoMemory>
    ensures { IfOk result (λ next. next ≡ reply_body status len behind) }
{
    if behind.len() < len {
        return Ok(ReplyProgress::Body(status, behind, len));
    }
    let body = Bytes::from_slice(alloc, &behind.as_slice()[..len])?;
    Ok(ReplyProgress::Over(ReplyFed::Done(status, body)))
}

/// The status, and where the body stands behind the head that begins the bytes, nothing where no head has come yet, or why they
/// are no reply.
fn find_body(bytes: &[u8], room: &mut [HeaderSpan]) -> Result<Option<(u16, BodyPlace)>, ReplyKind>
    requires { head_limit < 3 * length room.old }
    ensures { FindsReply bytes.now result }
{
    let front = &bytes[..bytes.len().min(HEAD_LIMIT)];
    match parse_response(front, room) {
        Ok(Status::Complete(head)) => match place_of(front, room, head) {
            Ok(place) => Ok(Some((head.code, place))),
            Err(why) => Err(why),
        },
        Ok(Status::Partial) => may_come(bytes),
        Err(_) => Err(ReplyKind::Head),
    }
}

/// Nothing yet, or that there is no room left for a head.
fn may_come(bytes: &[u8]) -> Result<Option<(u16, BodyPlace)>, ReplyKind>
    ensures { result ≡ (if nat_lt (length bytes.now) head_limit then Ok None else Err ReplyKind.Head) }
{
    if bytes.len() < HEAD_LIMIT {
        Ok(None)
    } else {
        Err(ReplyKind::Head)
    }
}

/// Where the body of a head stands that was found.
fn place_of(
    front: &[u8],
    fields: &[HeaderSpan],
    head: ResponseSpans,
) -> Result<BodyPlace, ReplyKind>
    requires { IsResponseWithin front.now fields.now head }
    ensures { (h : ResponseHead) → IsResponseAt front.now fields.now head h → result ≡ placed replies head.len h }
{
    if head.headers > FIELD_LIMIT {
        return Err(ReplyKind::Head);
    }
    let len = judge(front, &fields[..head.headers])?;
    Ok(BodyPlace {
        start: head.len,
        len,
    })
}

/// The length of the body behind a head, or what is wrong with it.
fn judge(front: &[u8], fields: &[HeaderSpan]) -> Result<usize, ReplyKind>
    requires { All (IsHeaderWithin (length front.now)) fields.now }
    ensures { result ≡ length_or_kind (length_by (values_in (codes "content-length")
        (map (header_bytes front.now) fields.now))) }
{
    match body_length(front, fields) {
        Ok(len) => Ok(len),
        Err(fault) => Err(kind_of(fault)),
    }
}

/// What is wrong with a reply for what its head says of the length of its body.
fn kind_of(fault: LengthFault) -> ReplyKind
    ensures { result ≡ kind_of fault }
{
    match fault {
        LengthFault::Missing => ReplyKind::Length,
        LengthFault::Malformed => ReplyKind::Length,
        LengthFault::Large => ReplyKind::Large,
    }
}
