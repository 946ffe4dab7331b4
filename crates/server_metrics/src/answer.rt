//! Answers to requests.
ghost use Rattle.std.specs.Prelude.{◌≡◌, ◌++◌, OnOk};
ghost use Rattle.server_metrics.specs.Replies.{allow_text, answer_text, field_text, fields_text, health_reply};
ghost use Rattle.server_metrics.specs.Replies.{length_field, reply_text, status_text};

use crate::request::Asked;
use crate::text::put;
use itoa::Buffer;
use std::alloc::AllocError;

/// How a server does.
#[derive(Clone, Copy, Debug, PartialEq, Eq)]
pub enum Health {
    /// It takes records and commits them.
    Ok,
    /// Its disk is full.
    DiskFull,
    /// No commit was made for a minute.
    NoCommit,
}

/// The status of an answer (RFC 9110, 15).
#[derive(Clone, Copy, Debug, PartialEq, Eq)]
pub(crate) enum Code {
    /// 200
    Ok,
    /// 400
    BadRequest,
    /// 404
    NotFound,
    /// 405, whose answer names the methods that are allowed (RFC 9110, 15.5.6)
    MethodNotAllowed,
    /// 503
    Unavailable,
}

const PLAIN_TYPE: &[u8] = b"text/plain; charset=utf-8";

const METRICS_TYPE: &[u8] = b"text/plain; version=0.0.4; charset=utf-8";

// Appends a status line (RFC 9112, 4).
fn put_status(out: &mut Vec<u8>, code: Code) -> Result<(), AllocError>
    ensures { OnOk result (out.new.items ≡ out.old.items ++ status_text code) }
{
    match code {
        Code::Ok => put(out, b"HTTP/1.1 200 OK\r\n"),
        Code::BadRequest => put(out, b"HTTP/1.1 400 Bad Request\r\n"),
        Code::NotFound => put(out, b"HTTP/1.1 404 Not Found\r\n"),
        Code::MethodNotAllowed => put(out, b"HTTP/1.1 405 Method Not Allowed\r\n"),
        Code::Unavailable => put(out, b"HTTP/1.1 503 Service Unavailable\r\n"),
    }
}

// Appends a field (RFC 9112, 5).
#[tactic(auto, unfolding(crate::specs::Replies::field_text))]
fn put_field(out: &mut Vec<u8>, name: &[u8], value: &[u8]) -> Result<(), AllocError>
    ensures { OnOk result (out.new.items ≡ out.old.items ++ field_text name.now value.now) }
{
    put(out, name)?;
    put(out, b": ")?;
    put(out, value)?;
    put(out, b"\r\n")
}

// Appends the field that says how many octets the content has (RFC 9110, 8.6).
#[tactic(auto, unfolding(crate::specs::Replies::length_field))]
fn put_length(out: &mut Vec<u8>, length: usize) -> Result<(), AllocError>
    ensures { OnOk result (out.new.items ≡ out.old.items ++ length_field length) }
{
    put_field(
        out,
        b"Content-Length",
        Buffer::new().format(length).as_bytes(),
    )
}

// Appends the field that names the methods that are allowed, where the method was not (RFC 9110,
// 10.2.1).
fn put_allow(out: &mut Vec<u8>, code: Code) -> Result<(), AllocError>
    ensures { OnOk result (out.new.items ≡ out.old.items ++ allow_text code) }
{
    match code {
        Code::MethodNotAllowed => put_field(out, b"Allow", b"GET, HEAD"),
        Code::Ok | Code::BadRequest | Code::NotFound | Code::Unavailable => Ok(()),
    }
}

// Appends the fields that say of which type the content is, how many octets it has, and that the
// connection ends.
fn put_fields(out: &mut Vec<u8>, media_type: &[u8], length: usize) -> Result<(), AllocError>
    ensures { OnOk result (out.new.items ≡ out.old.items ++ fields_text media_type.now length) }
{
    put_field(out, b"Content-Type", media_type)?;
    put_length(out, length)?;
    put_field(out, b"Connection", b"close")
}

// Appends an answer, with its content unless the method was HEAD (RFC 9112, 2.1).
#[tactic(auto, unfolding(crate::specs::Replies::reply_text))]
fn put_reply(
    out: &mut Vec<u8>,
    code: Code,
    media_type: &[u8],
    content: &[u8],
    has_body: bool,
) -> Result<(), AllocError>
    ensures { OnOk result (out.new.items
        ≡ out.old.items ++ reply_text code media_type.now content.now has_body) }
{
    put_status(out, code)?;
    put_fields(out, media_type, content.len())?;
    put_allow(out, code)?;
    put(out, b"\r\n")?;
    if has_body {
        put(out, content)?;
    }
    Ok(())
}

fn put_health(out: &mut Vec<u8>, health: Health, has_body: bool) -> Result<(), AllocError>
    ensures { OnOk result (out.new.items ≡ out.old.items ++ health_reply health has_body) }
{
    match health {
        Health::Ok => put_reply(out, Code::Ok, PLAIN_TYPE, b"ok\n", has_body),
        Health::DiskFull => put_reply(
            out,
            Code::Unavailable,
            PLAIN_TYPE,
            b"the disk is full\n",
            has_body,
        ),
        Health::NoCommit => put_reply(
            out,
            Code::Unavailable,
            PLAIN_TYPE,
            b"no commit was made for a minute\n",
            has_body,
        ),
    }
}

/// Appends the whole answer to a request (RFC 9112): a status line, the fields, an empty line, and the
/// body unless the method was HEAD. `page` is the page of metrics. If memory runs out, a part of the
/// answer may be there.
///
/// [`Asked::More`] is answered as a bad request: a caller that answers it waits no longer for the rest of
/// the head.
pub fn put_answer(
    out: &mut Vec<u8>,
    asked: Asked,
    health: Health,
    page: &[u8],
) -> Result<(), AllocError>
    ensures { OnOk result (out.new.items ≡ out.old.items ++ answer_text asked health page.now) }
{
    match asked {
        Asked::More | Asked::Bad => {
            put_reply(out, Code::BadRequest, PLAIN_TYPE, b"bad request\n", true)
        }
        Asked::Metrics { body } => put_reply(out, Code::Ok, METRICS_TYPE, page, body),
        Asked::Health { body } => put_health(out, health, body),
        Asked::NotFound { body } => {
            put_reply(out, Code::NotFound, PLAIN_TYPE, b"not found\n", body)
        }
        Asked::Method => put_reply(
            out,
            Code::MethodNotAllowed,
            PLAIN_TYPE,
            b"method not allowed\n",
            true,
        ),
    }
}
