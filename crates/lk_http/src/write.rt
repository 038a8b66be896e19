//! Messages as they are written.

ghost use Rattle.std.specs.Prelude.{◌≡◌, IfOk, true};
ghost use Rattle.lk_http.specs.Written.{allow_line, is_status, reply_message, request_message, status_text};

use lk_ast::{Bytes, NoMemory};
use std::alloc::Global;

/// The text of a request with this body.
pub fn write_request(alloc: Global, body: &[u8]) -> Result<Bytes, NoMemory>
    ensures { IfOk result (λ text. text ≡ request_message body.now) }
{
    let head = format!(in alloc;
        "POST /links HTTP/1.1\r\nHost: localhost\r\nContent-Type: application/json\r\nContent-Length: {}\r\nConnection: close\r\n\r\n",
        body.len()
    )?;
    let mut message = Bytes::from_vec(head.into_bytes());
    message.push_slice(body)?;
    Ok(message)
}

/// The text of a reply with this status, which is one of those that a reply may have, and this body.
pub fn write_reply(alloc: Global, status: u16, body: &[u8]) -> Result<Bytes, NoMemory>
    requires { is_status status ≡ true }
    ensures { IfOk result (λ text. text ≡ reply_message status body.now) }
{
    let head = format!(in alloc;
        "HTTP/1.1 {}\r\n{}Content-Type: application/json\r\nContent-Length: {}\r\nConnection: close\r\n\r\n",
        status_text(status),
        allow_line(status),
        body.len()
    )?;
    let mut message = Bytes::from_vec(head.into_bytes());
    message.push_slice(body)?;
    Ok(message)
}

/// Whether a reply may have this status.
pub fn is_status(status: u16) -> bool
    ensures { result ≡ is_status status }
{
    matches!(
        status,
        200 | 400 | 404 | 405 | 411 | 413 | 431 | 500 | 501 | 503
    )
}

/// A status and its reason.
fn status_text(status: u16) -> &'static str
    ensures { result.now ≡ status_text status }
{
    match status {
        200 => "200 OK",
        400 => "400 Bad Request",
        404 => "404 Not Found",
        405 => "405 Method Not Allowed",
        411 => "411 Length Required",
        413 => "413 Content Too Large",
        431 => "431 Request Header Fields Too Large",
        500 => "500 Internal Server Error",
        501 => "501 Not Implemented",
        _ => "503 Service Unavailable",
    }
}

/// The field that a reply of 405 has.
fn allow_line(status: u16) -> &'static str
    ensures { result.now ≡ allow_line status }
{
    match status {
        405 => "Allow: POST\r\n",
        _ => "",
    }
}
