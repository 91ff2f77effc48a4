//! Parses the head of a request.
ghost use Rattle.std.specs.Prelude.{◌≡◌, ◌<◌, ◌≤◌, ℕ, List, length};
ghost use Rattle.httparse.specs.Grammar.{RequestHead, ReadsRequest};
ghost use Rattle.http_messages.specs.Faults.{IsExpected};
ghost use Rattle.http_messages.specs.Limits.{max_fields, max_head_len};
ghost use Rattle.http_messages.specs.Questions.{request_view};
ghost use Rattle.http_messages.specs.Requests.{asked_by, AnswersHead};

use crate::asking::asked_by;
use crate::fault::RequestFault;
use crate::request::Request;
use httparse::spans::{EMPTY_HEADER_SPAN, parse_request};
use httparse::{Error, Status};
use std::alloc::Global;

/// The most bytes of a head.
pub const MAX_HEAD_LEN: usize = 8192;

/// The most field lines of a head.
pub const MAX_FIELDS: usize = 64;

/// What the head of a request asks: its bytes up to the blank line, which is part of it. Bytes after the blank line are not read. The
/// values of fields are not read either. `Incomplete` tells a reader of a stream to read on; `Malformed`, that no more bytes help.
pub fn parse(alloc: Global, head: &[u8]) -> Result<Request, RequestFault>
    // `TooLong` only if there are too many bytes or field lines, `Malformed` only if no head starts with the bytes, `Incomplete` only if
    // more bytes may make them one.
    ensures answers { AnswersHead head.now result }

    // Too many bytes are refused before anything else.
    ensures too_long { max_head_len < length head.now → result ≡ Err RequestFault.TooLong }

    // A head of no more bytes and field lines than are allowed is answered.
    ensures found { (h : RequestHead) (rest : List ℕ) → ReadsRequest head.now h rest → length head.now ≤ max_head_len
        → length h.fields ≤ max_fields → IsExpected request_view result (asked_by h.method h.target) }
{
    if head.len() > MAX_HEAD_LEN {
        return Err(RequestFault::TooLong);
    }
    let mut fields = [EMPTY_HEADER_SPAN; MAX_FIELDS];
    match parse_request(head, &mut fields) {
        Ok(Status::Complete(line)) => asked_by(alloc, line.method.of(head), line.path.of(head)),
        Ok(Status::Partial) => Err(RequestFault::Incomplete),
        Err(Error::TooManyHeaders) => Err(RequestFault::TooLong),
        Err(_) => Err(RequestFault::Malformed),
    }
}
