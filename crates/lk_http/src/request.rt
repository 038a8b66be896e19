//! The reader of requests.

ghost use Rattle.std.specs.Prelude.{◌≡◌, ◌<◌, ◌≤◌, ◌*◌, ◌++◌, [], List, ℕ, All, IfOk, OnErr, Some, None, Ok, Err, drop, length, map, nat_lt, if◌then◌else◌};
ghost use Rattle.httparse.specs.Grammar.{RequestHead};
ghost use Rattle.httparse.specs.Spans.{IsHeaderWithin, IsRequestAt, IsRequestWithin, header_bytes, span_bytes};
ghost use Rattle.lk_http.specs.Limits.{head_limit};
ghost use Rattle.lk_http.specs.Reading.{FindsRequest, HasReadRequest, KeepsRequest, placed, request_answer, request_body};
ghost use Rattle.lk_http.specs.Requests.{judged_by, refusal_of, requests};
ghost use Rattle.lk_http.specs.Verdicts.{IsVerdict};

use crate::fault::LengthFault;
use crate::fields::{are_hosts, body_length, has_named};
use crate::limits::{FIELD_LIMIT, HEAD_LIMIT, ROOM};
use crate::place::BodyPlace;
use crate::progress::RequestProgress;
use crate::refusal::HttpRefusal;
use crate::verdict::Fed;
use httparse::Status;
use httparse::spans::{EMPTY_HEADER_SPAN, HeaderSpan, RequestSpans, parse_request};
use lk_ast::{Bytes, NoMemory};
use std::alloc::Global;
use std::marker::Model;
use std::mem;

/// A reader of one request, which comes in pieces.
#[derive(Drop)]
pub struct RequestReader {
    progress: RequestProgress,
    room: Vec<HeaderSpan>,
}

impl Model for RequestReader {
    ghost use Rattle.std.specs.Prelude.{◌≡◌, length};
    ghost use Rattle.lk_http.specs.declared.progress.RequestProgress.{RequestProgress};

    ghost Value = { RequestProgress };

    ghost view = { λ reader. reader.progress };

    ghost invariant = { λ reader. length reader.room.items ≡ 2_731 };
}

impl RequestReader {
    /// A reader that was given no byte yet.
    pub fn new(alloc: Global) -> Result<RequestReader, NoMemory>
        ensures { IfOk result (λ reader. HasReadRequest reader []) }
    {
        Ok(RequestReader {
            progress: RequestProgress::Head(Bytes::new(alloc)),
            room: vec![in alloc; EMPTY_HEADER_SPAN; ROOM]?,
        })
    }

    /// Takes the next piece, and answers the verdict on all bytes so far. A verdict but `More` is kept from then on, whatever
    /// comes, and where memory ran out the reader fails from then on.
    pub fn feed(&mut self, alloc: Global, piece: &[u8]) -> Result<Fed, NoMemory>
        ensures read { (bytes : List ℕ) → HasReadRequest self.old bytes → HasReadRequest self.new (bytes ++ piece.now) }
        ensures verdict { (bytes : List ℕ) → HasReadRequest self.old bytes
            → IfOk result (IsVerdict requests (bytes ++ piece.now)) }
        ensures told { IfOk result (λ verdict. request_answer self.new ≡ Some verdict) }
        ensures failed { OnErr result (self.new ≡ RequestProgress.Broken) }
        ensures kept { KeepsRequest self.old self.new }
    {
        let progress = mem::replace(&mut self.progress, RequestProgress::Broken);
        let next = step(alloc, progress, self.room.as_mut_slice(), piece)?;
        let verdict = answer(alloc, &next)?;
        self.progress = next;
        Ok(verdict)
    }
}

/// What is answered there, a copy of the verdict.
fn answer(alloc: Global, progress: &RequestProgress) -> Result<Fed, NoMemory>
    ensures { IfOk result (λ verdict. request_answer progress.now ≡ Some verdict) }
{
    match progress {
        RequestProgress::Head(_) => Ok(Fed::More),
        RequestProgress::Body(_, _) => Ok(Fed::More),
        RequestProgress::Over(verdict) => copy_verdict(alloc, verdict),
        RequestProgress::Broken => Err(NoMemory),
    }
}

/// A copy of a verdict.
fn copy_verdict(alloc: Global, verdict: &Fed) -> Result<Fed, NoMemory>
    ensures { IfOk result (λ copy. copy ≡ verdict.now) }
{
    match verdict {
        Fed::More => Ok(Fed::More),
        Fed::Done(body) => Ok(Fed::Done(Bytes::from_slice(alloc, body.as_slice())?)),
        Fed::Refused(why) => Ok(Fed::Refused(*why)),
    }
}

/// Where a reader stands after one more piece.
fn step(
    alloc: Global,
    progress: RequestProgress,
    room: &mut [HeaderSpan],
    piece: &[u8],
) -> Result<RequestProgress, NoMemory>
    requires { head_limit < 3 * length room.old }
    ensures read { (bytes : List ℕ) → HasReadRequest progress bytes
        → IfOk result (λ next. HasReadRequest next (bytes ++ piece.now)) }
    ensures kept { IfOk result (KeepsRequest progress) }
{
    match progress {
        RequestProgress::Head(bytes) => Ok(more_head(alloc, bytes, room, piece)?),
        RequestProgress::Body(behind, len) => Ok(more_body(alloc, behind, len, piece)?),
        RequestProgress::Over(verdict) => Ok(RequestProgress::Over(verdict)),
        RequestProgress::Broken => Err(NoMemory),
    }
}

/// Where it stands after one more piece where no head has come yet.
fn more_head(
    alloc: Global,
    mut bytes: Bytes,
    room: &mut [HeaderSpan],
    piece: &[u8],
) -> Result<RequestProgress, NoMemory>
    requires { head_limit < 3 * length room.old }
    ensures { IfOk result (λ next. HasReadRequest next (bytes ++ piece.now)) }
{
    bytes.push_slice(piece)?;
    match find_body(bytes.as_slice(), room) {
        Ok(None) => Ok(RequestProgress::Head(bytes)),
        Ok(Some(place)) => begin_body(alloc, bytes.as_slice(), place),
        Err(why) => Ok(RequestProgress::Over(Fed::Refused(why))),
    }
}

/// Where it stands behind a head that has come.
fn begin_body(alloc: Global, bytes: &[u8], place: BodyPlace) -> Result<RequestProgress, NoMemory>
    requires { place.start ≤ length bytes.now }
    ensures { IfOk result (λ next. next ≡ request_body place.len (drop place.start bytes.now)) }
{
    let behind = Bytes::from_slice(alloc, &bytes[place.start..])?;
    body_of(alloc, behind, place.len)
}

/// Where it stands after one more piece behind a head.
fn more_body(
    alloc: Global,
    mut behind: Bytes,
    len: usize,
    piece: &[u8],
) -> Result<RequestProgress, NoMemory>
    ensures { IfOk result (λ next. next ≡ request_body len (behind ++ piece.now)) }
{
    behind.push_slice(piece)?;
    body_of(alloc, behind, len)
}

/// Where it stands behind a head that announces so many bytes, with these bytes behind it.
fn body_of(alloc: Global, behind: Bytes, len: usize) -> Result<RequestProgress, NoMemory>
    ensures { IfOk result (λ next. next ≡ request_body len behind) }
{
    if behind.len() < len {
        return Ok(RequestProgress::Body(behind, len));
    }
    let body = Bytes::from_slice(alloc, &behind.as_slice()[..len])?;
    Ok(RequestProgress::Over(Fed::Done(body)))
}

/// Where the body stands behind the head that begins the bytes, nothing where no head has come yet, or why they are refused.
fn find_body(bytes: &[u8], room: &mut [HeaderSpan]) -> Result<Option<BodyPlace>, HttpRefusal>
    requires { head_limit < 3 * length room.old }
    ensures { FindsRequest bytes.now result }
{
    let front = &bytes[..bytes.len().min(HEAD_LIMIT)];
    match parse_request(front, room) {
        Ok(Status::Complete(head)) => match place_of(front, room, head) {
            Ok(place) => Ok(Some(place)),
            Err(why) => Err(why),
        },
        Ok(Status::Partial) => may_come(bytes),
        Err(_) => Err(HttpRefusal::BadRequest),
    }
}

/// Nothing yet, or that there is no room left for a head.
fn may_come(bytes: &[u8]) -> Result<Option<BodyPlace>, HttpRefusal>
    ensures { result ≡ (if nat_lt (length bytes.now) head_limit then Ok None else Err HttpRefusal.HeadTooLarge) }
{
    if bytes.len() < HEAD_LIMIT {
        Ok(None)
    } else {
        Err(HttpRefusal::HeadTooLarge)
    }
}

/// Where the body of a head stands that was found.
fn place_of(
    front: &[u8],
    fields: &[HeaderSpan],
    head: RequestSpans,
) -> Result<BodyPlace, HttpRefusal>
    requires { IsRequestWithin front.now fields.now head }
    ensures { (h : RequestHead) → IsRequestAt front.now fields.now head h → result ≡ placed requests head.len h }
{
    if head.headers > FIELD_LIMIT {
        return Err(HttpRefusal::HeadTooLarge);
    }
    let len = judge(front, &fields[..head.headers], head)?;
    Ok(BodyPlace {
        start: head.len,
        len,
    })
}

/// The length of the body behind a head, or why the request is refused.
fn judge(front: &[u8], fields: &[HeaderSpan], head: RequestSpans) -> Result<usize, HttpRefusal>
    requires method { (head.method.start ≤ head.method.end) × (head.method.end ≤ length front.now) }
    requires path { (head.path.start ≤ head.path.end) × (head.path.end ≤ length front.now) }
    requires fields { All (IsHeaderWithin (length front.now)) fields.now }
    ensures { result ≡ judged_by (span_bytes front.now head.method) (span_bytes front.now head.path) head.version
        (map (header_bytes front.now) fields.now) }
{
    if !are_hosts(front, fields, head.version) {
        return Err(HttpRefusal::BadRequest);
    }
    if head.path.of(front) != b"/links".as_slice() {
        return Err(HttpRefusal::NotFound);
    }
    if head.method.of(front) != b"POST".as_slice() {
        return Err(HttpRefusal::NotAllowed);
    }
    if has_named(front, fields, "transfer-encoding") {
        return Err(HttpRefusal::NotImplemented);
    }
    match body_length(front, fields) {
        Ok(len) => Ok(len),
        Err(fault) => Err(refusal_of(fault)),
    }
}

/// Why a request is refused for what its head says of the length of its body.
fn refusal_of(fault: LengthFault) -> HttpRefusal
    ensures { result ≡ refusal_of fault }
{
    match fault {
        LengthFault::Missing => HttpRefusal::LengthRequired,
        LengthFault::Malformed => HttpRefusal::BadRequest,
        LengthFault::Large => HttpRefusal::TooLarge,
    }
}
