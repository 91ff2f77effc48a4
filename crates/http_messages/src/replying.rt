//! The whole reply: its head, and the body.
ghost use Rattle.std.specs.Prelude.{◌≡◌, ◌++◌, IfOk, OnOk, OnErr};
ghost use Rattle.std.specs.String.{string_bytes};
ghost use Rattle.http_messages.specs.declared.fault.RequestFault.TheVariants as faults;
ghost use Rattle.http_messages.specs.Answers.{answer_view, Fault};
ghost use Rattle.http_messages.specs.Replies.{status_of, content_type, allow_text, fields_text, head_text, result_text, sync_body, commit_body, body_text, http_reply_bytes};

use crate::answer::{Answer, Commitment, Submission};
use crate::errors::{
    fault_body, reason, refusal_body, refusal_status, service_body, service_status,
};
use crate::metrics::metrics;
use crate::page::PAGE;
use crate::{RequestFault, results};
use ledger_model::SubmitRefusal;
use std::alloc::{AllocError, Global};

/// The status of the reply.
#[tactic(auto, unfolding(crate::specs::Replies::status_of))]
fn status_of(answer: &Answer<'_>) -> u16
    ensures { result ≡ status_of (answer_view answer.now) }
{
    match answer {
        Answer::Fault(fault) => fault.status(),
        Answer::Unanswered(fault) => service_status(*fault),
        Answer::BroadcastSync {
            submission: Submission::Refused(refusal),
            ..
        } => refusal_status(*refusal),
        Answer::BroadcastCommit {
            commitment: Commitment::Refused(refusal),
            ..
        } => refusal_status(*refusal),
        _ => 200,
    }
}

/// The type of the body.
#[tactic(auto, unfolding(crate::specs::Replies::content_type))]
fn content_type(answer: &Answer<'_>) -> &'static str
    ensures { result.now ≡ content_type (answer_view answer.now) }
{
    match answer {
        Answer::Page => "text/html; charset=utf-8",
        Answer::Metrics(_) => "text/plain; version=0.0.4; charset=utf-8",
        _ => "application/json",
    }
}

/// The field line that says which methods are answered, if the method was not.
#[tactic(auto, unfolding(crate::specs::Replies::allow_text))]
fn allow_text(answer: &Answer<'_>) -> &'static str
    ensures { result.now ≡ allow_text (answer_view answer.now) }
{
    match answer {
        Answer::Fault(RequestFault::Method) => "Allow: GET\r\n",
        _ => "",
    }
}

/// The head of a reply with this status, this type and length of the body, and this field line more.
#[tactic(auto, unfolding(crate::specs::Replies::fields_text))]
fn fields(
    alloc: Global,
    status: u16,
    kind: &str,
    len: usize,
    allow: &str,
) -> Result<String, AllocError>
    ensures { IfOk result (λ head. string_bytes head ≡ fields_text status kind.now len allow.now) }
{
    let reason = reason(status);
    format!(in alloc;
        "HTTP/1.1 {status} {reason}\r\nContent-Type: {kind}\r\nContent-Length: {len}\r\n{allow}Connection: close\r\n\r\n"
    )
}

/// The head of the reply with a body of `len` bytes.
#[tactic(auto, unfolding(crate::specs::Replies::head_text))]
fn head(alloc: Global, answer: &Answer<'_>, len: usize) -> Result<String, AllocError>
    ensures { IfOk result (λ head. string_bytes head ≡ head_text (answer_view answer.now) len) }
{
    fields(
        alloc,
        status_of(answer),
        content_type(answer),
        len,
        allow_text(answer),
    )
}

/// The body of a reply with a result.
#[tactic(auto, unfolding(crate::specs::Replies::result_text))]
fn result_body(alloc: Global, result_object: &str) -> Result<String, AllocError>
    ensures { IfOk result (λ body. string_bytes body ≡ result_text result_object.now) }
{
    format!(in alloc; "{{\"jsonrpc\":\"2.0\",\"id\":-1,\"result\":{result_object}}}")
}

/// The body of the reply to a transaction for the pool.
#[tactic(auto, unfolding(crate::specs::Replies::sync_body))]
fn sync_body(alloc: Global, tx: &[u8], submission: Submission) -> Result<String, AllocError>
    ensures { IfOk result (λ body. string_bytes body ≡ sync_body tx.now submission) }
{
    match submission {
        Submission::Pooled(receipt) => result_body(alloc, &results::sync(alloc, tx, receipt)?),
        Submission::Refused(SubmitRefusal::Rejected(code)) => {
            result_body(alloc, &results::rejected_sync(alloc, tx, code)?)
        }
        Submission::Refused(refusal) => refusal_body(alloc, refusal),
    }
}

/// The body of the reply to a transaction that was to be in a block.
#[tactic(auto, unfolding(crate::specs::Replies::commit_body))]
fn commit_body(alloc: Global, tx: &[u8], commitment: Commitment) -> Result<String, AllocError>
    ensures { IfOk result (λ body. string_bytes body ≡ commit_body tx.now commitment) }
{
    match commitment {
        Commitment::Committed {
            receipt,
            height,
            code,
        } => { result_body(alloc, &results::commit(alloc, tx, receipt, height, code)?) }
        Commitment::Refused(SubmitRefusal::Rejected(code)) => {
            result_body(alloc, &results::rejected_commit(alloc, tx, code)?)
        }
        Commitment::Refused(refusal) => refusal_body(alloc, refusal),
    }
}

/// The page.
fn page_body(alloc: Global, page: &str) -> Result<String, AllocError>
    ensures { IfOk result (λ body. string_bytes body ≡ page.now) }
{
    page.to_string(alloc)
}

/// The body of the reply.
#[tactic(auto, unfolding(crate::specs::Replies::body_text))]
fn body(alloc: Global, answer: &Answer<'_>) -> Result<String, AllocError>
    ensures { IfOk result (λ body. string_bytes body ≡ body_text (answer_view answer.now)) }
{
    match answer {
        Answer::Page => page_body(alloc, PAGE),
        Answer::Health => result_body(alloc, "{}"),
        Answer::Status {
            replica,
            round,
            height,
        } => { result_body(alloc, &results::status(alloc, *replica, *round, *height)?) }
        Answer::AbciInfo { kind, height, hash } => {
            result_body(alloc, &results::info(alloc, *kind, *height, hash)?)
        }
        Answer::AbciQuery { key, value, height } => {
            result_body(alloc, &results::query(alloc, key, *value, *height)?)
        }
        Answer::Block { height, batch } => {
            result_body(alloc, &results::block(alloc, *height, batch)?)
        }
        Answer::UnconfirmedTxs { count, bytes } => {
            result_body(alloc, &results::unconfirmed(alloc, *count, *bytes)?)
        }
        Answer::BroadcastSync { tx, submission } => sync_body(alloc, tx, *submission),
        Answer::BroadcastCommit { tx, commitment } => commit_body(alloc, tx, *commitment),
        Answer::Metrics(replicas) => metrics(alloc, replicas),
        Answer::Fault(fault) => fault_body(alloc, *fault),
        Answer::Unanswered(fault) => service_body(alloc, *fault),
    }
}

/// Appends the reply: the status line, the fields, and the body, whose length the head has. If memory runs out, nothing is appended.
#[tactic(auto, unfolding(crate::specs::Replies::http_reply_bytes))]
pub fn put_reply(out: &mut Vec<u8>, answer: &Answer<'_>) -> Result<(), AllocError>
    ensures ok { OnOk result (out.new.items ≡ out.old.items ++ http_reply_bytes (answer_view answer.now)) }
    ensures err { OnErr result (out.new.items ≡ out.old.items) }
{
    let alloc = *out.allocator();
    let body = body(alloc, answer)?;
    let head = head(alloc, answer, body.len())?;
    out.reserve(head.len() + body.len())?;
    out.extend_from_slice(head.as_bytes())?;
    out.extend_from_slice(body.as_bytes())
}

/// The reply to a request for which memory ran out, as a constant.
const OUT_OF_MEMORY: &str = "\
    HTTP/1.1 500 Internal Server Error\r\n\
    Content-Type: application/json\r\n\
    Content-Length: 99\r\n\
    Connection: close\r\n\
    \r\n\
    {\"jsonrpc\":\"2.0\",\"id\":-1,\"error\":{\"code\":-32603,\"message\":\"Internal error\",\"data\":\"out of memory\"}}";

/// The reply to a request for which memory ran out. It needs no memory.
pub fn out_of_memory_reply() -> &'static [u8]
    ensures { result.now ≡ http_reply_bytes (Fault faults.NoMemory) }
{
    OUT_OF_MEMORY.as_bytes()
}
