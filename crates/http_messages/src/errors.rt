//! Errors of JSON-RPC 2.0, and the statuses of HTTP that they come with.
ghost use Rattle.std.specs.Prelude.{◌≡◌, IfOk};
ghost use Rattle.std.specs.String.{string_bytes};
ghost use Rattle.http_messages.specs.Faults.{request_fault_text};
ghost use Rattle.http_messages.specs.Errors.{reason_text, kind_text, error_text, fault_kind, service_status, service_kind, service_text, refusal_status, refusal_kind, submit_refusal_sentence};

use crate::RequestFault;
use crate::answer::ServiceFault;
use ledger_model::SubmitRefusal;
use std::alloc::{AllocError, Global};

/// A kind of error of JSON-RPC 2.0.
#[derive(Clone, Copy)]
pub(crate) enum ErrorKind {
    InvalidRequest,
    InvalidParams,
    MethodNotFound,
    Internal,
}

/// The reason phrase of a status.
#[tactic(auto, unfolding(crate::specs::Errors::reason_text))]
pub(crate) fn reason(status: u16) -> &'static str
    ensures { result.now ≡ reason_text status }
{
    match status {
        200 => "OK",
        400 => "Bad Request",
        404 => "Not Found",
        405 => "Method Not Allowed",
        431 => "Request Header Fields Too Large",
        503 => "Service Unavailable",
        _ => "Internal Server Error",
    }
}

/// The code and the message of a kind of error.
fn kind_text(kind: ErrorKind) -> &'static str
    ensures { result.now ≡ kind_text kind }
{
    match kind {
        ErrorKind::InvalidRequest => "\"code\":-32600,\"message\":\"Invalid Request\"",
        ErrorKind::InvalidParams => "\"code\":-32602,\"message\":\"Invalid params\"",
        ErrorKind::MethodNotFound => "\"code\":-32601,\"message\":\"Method not found\"",
        ErrorKind::Internal => "\"code\":-32603,\"message\":\"Internal error\"",
    }
}

/// The body of a reply with an error, which says this sentence.
#[tactic(auto, unfolding(crate::specs::Errors::error_text))]
fn error_body(alloc: Global, kind: ErrorKind, sentence: &str) -> Result<String, AllocError>
    ensures { IfOk result (λ body. string_bytes body ≡ error_text (kind_text kind) sentence.now) }
{
    let kind = kind_text(kind);
    format!(in alloc;
        "{{\"jsonrpc\":\"2.0\",\"id\":-1,\"error\":{{{kind},\"data\":\"{sentence}\"}}}}"
    )
}

/// The kind of error that a fault of a request is.
fn fault_kind(fault: RequestFault) -> ErrorKind
    ensures { result ≡ fault_kind fault }
{
    match fault {
        RequestFault::Parameter(_) => ErrorKind::InvalidParams,
        RequestFault::NotFound => ErrorKind::MethodNotFound,
        RequestFault::NoMemory => ErrorKind::Internal,
        RequestFault::Malformed
        | RequestFault::Incomplete
        | RequestFault::Method
        | RequestFault::TooLong => ErrorKind::InvalidRequest,
    }
}

/// The body of the reply to a request with a fault.
pub(crate) fn fault_body(alloc: Global, fault: RequestFault) -> Result<String, AllocError>
    ensures { IfOk result (λ body. string_bytes body ≡ error_text (kind_text (fault_kind fault)) (request_fault_text fault)) }
{
    let sentence = format!(in alloc; "{fault}")?;
    error_body(alloc, fault_kind(fault), &sentence)
}

/// The status of a reply that says that a question has no answer.
pub(crate) fn service_status(fault: ServiceFault) -> u16
    ensures { result ≡ service_status fault }
{
    match fault {
        ServiceFault::NoReplica | ServiceFault::NotLastHeight => 400,
        ServiceFault::NotCommitted | ServiceFault::TimedOut | ServiceFault::Stranger => 500,
        ServiceFault::HistoryFull | ServiceFault::Stopping => 503,
    }
}

fn service_kind(fault: ServiceFault) -> ErrorKind
    ensures { result ≡ service_kind fault }
{
    match fault {
        ServiceFault::NoReplica | ServiceFault::NotLastHeight => ErrorKind::InvalidParams,
        _ => ErrorKind::Internal,
    }
}

fn service_text(fault: ServiceFault) -> &'static str
    ensures { result.now ≡ service_text fault }
{
    match fault {
        ServiceFault::NoReplica => "the cluster has no such replica",
        ServiceFault::NotCommitted => "the replica has not committed this height",
        ServiceFault::NotLastHeight => "the application answers as of its last block alone",
        ServiceFault::HistoryFull => "the replica's history has no entries left for clients",
        ServiceFault::TimedOut => "timed out waiting for tx to be included in a block",
        ServiceFault::Stopping => "the cluster was asked to stop",
        ServiceFault::Stranger => "the state of this replica is not its own",
    }
}

/// The body of a reply that says that a question has no answer.
pub(crate) fn service_body(alloc: Global, fault: ServiceFault) -> Result<String, AllocError>
    ensures { IfOk result (λ body. string_bytes body ≡ error_text (kind_text (service_kind fault)) (service_text fault)) }
{
    error_body(alloc, service_kind(fault), service_text(fault))
}

/// The status of the reply to a transaction that the pool refused. If the application refused it, that is an answer and no error.
pub(crate) fn refusal_status(refusal: SubmitRefusal) -> u16
    ensures { result ≡ refusal_status refusal }
{
    match refusal {
        SubmitRefusal::Empty | SubmitRefusal::TooLong => 400,
        SubmitRefusal::Duplicate | SubmitRefusal::Full => 500,
        SubmitRefusal::Rejected(_) => 200,
    }
}

fn refusal_kind(refusal: SubmitRefusal) -> ErrorKind
    ensures { result ≡ refusal_kind refusal }
{
    match refusal {
        SubmitRefusal::Empty | SubmitRefusal::TooLong => ErrorKind::InvalidParams,
        _ => ErrorKind::Internal,
    }
}

fn refusal_text(refusal: SubmitRefusal) -> &'static str
    ensures { result.now ≡ submit_refusal_sentence refusal }
{
    match refusal {
        SubmitRefusal::Empty => "the transaction has no byte",
        SubmitRefusal::TooLong => "the transaction has more than 64 bytes",
        SubmitRefusal::Duplicate => "tx already exists in cache",
        SubmitRefusal::Full => "mempool is full",
        SubmitRefusal::Rejected(_) => "the application refuses the transaction",
    }
}

/// The body of a reply that says why the pool refused a transaction.
pub(crate) fn refusal_body(alloc: Global, refusal: SubmitRefusal) -> Result<String, AllocError>
    ensures { IfOk result (λ body. string_bytes body ≡ error_text (kind_text (refusal_kind refusal)) (submit_refusal_sentence refusal)) }
{
    error_body(alloc, refusal_kind(refusal), refusal_text(refusal))
}
