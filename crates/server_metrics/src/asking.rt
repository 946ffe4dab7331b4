//! What a request asks for.
ghost use Rattle.std.specs.Prelude.{◌≡◌, ◌≤◌, ℕ, List, length};
ghost use Rattle.httparse.specs.Grammar.{ReadsRequest, RequestHead};
ghost use Rattle.server_metrics.specs.Requests.{AsksFor, IsAnswerTo, method_text, path_of};

use crate::request::Asked;
use httparse::Status;
use httparse::spans::{EMPTY_HEADER_SPAN, parse_request};

/// How many header fields the head of a request may have.
pub const HEADERS_MAX: usize = 64;

// What stands before the query of a target (RFC 9112, 3.2.1).
fn path_of(target: &[u8]) -> &[u8]
    ensures { result.now ≡ path_of target.now }
{
    for at in 0..target.len() {
        if target[at] == b'?' {
            return &target[..at];
        }
    }
    target
}

// What a request by GET, whose answer has a body, or by HEAD asks for.
fn asked_target(target: &[u8], body: bool) -> Asked
    ensures { AsksFor (method_text body) target.now result }
{
    let path = path_of(target);
    if path == b"/metrics".as_slice() {
        return Asked::Metrics { body };
    }
    if path == b"/health".as_slice() {
        return Asked::Health { body };
    }
    Asked::NotFound { body }
}

// What a method and a target ask for.
fn asked_for(method: &[u8], target: &[u8]) -> Asked
    ensures { AsksFor method.now target.now result }
{
    if method == b"GET".as_slice() {
        return asked_target(target, true);
    }
    if method == b"HEAD".as_slice() {
        return asked_target(target, false);
    }
    Asked::Method
}

/// What a request asks for, by the octets that came on its connection so far (RFC 9112, 2 and 3). A body
/// or a further request may follow the head. Of the target, what stands before the first `?` counts.
pub fn asked(head: &[u8]) -> Asked
    ensures answer { IsAnswerTo head.now result }
    ensures found { (h : RequestHead) (rest : List ℕ) → ReadsRequest head.now h rest
        → length h.fields ≤ HEADERS_MAX → AsksFor h.method h.target result }
{
    let mut headers = [EMPTY_HEADER_SPAN; HEADERS_MAX];
    match parse_request(head, &mut headers) {
        Ok(Status::Complete(spans)) => asked_for(spans.method.of(head), spans.path.of(head)),
        Ok(Status::Partial) => Asked::More,
        Err(_) => Asked::Bad,
    }
}
