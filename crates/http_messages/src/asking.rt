//! What a method and a target ask.
ghost use Rattle.std.specs.Prelude.{◌≡◌, IsErrOf, IsTrue};
ghost use Rattle.http_messages.specs.Faults.{IsExpected};
ghost use Rattle.http_messages.specs.Questions.{question_view, request_view};
ghost use Rattle.http_messages.specs.Requests.{path_of, query_of, question_in, request_in, asked_by, needs_memory};
ghost use Rattle.http_messages.specs.Parameters.{is_any_given};

use crate::endpoint::{Endpoint, endpoint_of};
use crate::fault::{Parameter, RequestFault};
use crate::parameters::{height_in, replica_in, required_bytes};
use crate::request::{Question, Request};
use std::alloc::Global;

/// The path and the query of a target, which the first `?` separates.
fn split_target(target: &[u8]) -> (&[u8], &[u8])
    ensures path { result.0.now ≡ path_of target.now }
    ensures query { result.1.now ≡ query_of target.now }
{
    match target.iter().position(|&byte| byte == b'?') {
        Some(end) => (&target[..end], &target[end + 1..]),
        None => (target, &[]),
    }
}

/// The question that an endpoint is asked with a query.
#[tactic(auto, using(crate::proofs::Steps::first_fault), unfolding(crate::specs::Requests::question_in))]
fn question_in(alloc: Global, endpoint: Endpoint, query: &[u8]) -> Result<Question, RequestFault>
    ensures gives { IsExpected question_view result (question_in endpoint query.now) }
    ensures memory { IsErrOf result RequestFault.NoMemory → IsTrue (is_any_given query.now) }
{
    match endpoint {
        Endpoint::Page => Ok(Question::Page),
        Endpoint::Health => Ok(Question::Health),
        Endpoint::Status => Ok(Question::Status),
        Endpoint::AbciInfo => Ok(Question::AbciInfo),
        Endpoint::AbciQuery => {
            let key = required_bytes(alloc, Parameter::Data, query)?;
            let height = height_in(alloc, query)?;
            Ok(Question::AbciQuery { key, height })
        }
        Endpoint::Block => {
            let height = height_in(alloc, query)?;
            Ok(Question::Block { height })
        }
        Endpoint::UnconfirmedTxs => Ok(Question::UnconfirmedTxs),
        Endpoint::BroadcastSync => {
            let tx = required_bytes(alloc, Parameter::Tx, query)?;
            Ok(Question::BroadcastSync { tx })
        }
        Endpoint::BroadcastCommit => {
            let tx = required_bytes(alloc, Parameter::Tx, query)?;
            Ok(Question::BroadcastCommit { tx })
        }
        Endpoint::Metrics => Ok(Question::Metrics),
    }
}

/// The question that an endpoint is asked with a query, and the replica that the query names.
#[tactic(auto, using(crate::proofs::Steps::first_fault), unfolding(crate::specs::Requests::request_in))]
fn request_in(alloc: Global, endpoint: Endpoint, query: &[u8]) -> Result<Request, RequestFault>
    ensures gives { IsExpected request_view result (request_in endpoint query.now) }
    ensures memory { IsErrOf result RequestFault.NoMemory → IsTrue (is_any_given query.now) }
{
    let question = question_in(alloc, endpoint, query)?;
    let replica = replica_in(alloc, query)?;
    Ok(Request { question, replica })
}

/// What a method and a target ask.
#[tactic(auto, unfolding(crate::specs::Requests::asked_by))]
pub(crate) fn asked_by(alloc: Global, method: &[u8], target: &[u8]) -> Result<Request, RequestFault>
    ensures gives { IsExpected request_view result (asked_by method.now target.now) }
    ensures memory { IsErrOf result RequestFault.NoMemory → IsTrue (needs_memory method.now target.now) }
{
    let (path, query) = split_target(target);
    let Some(endpoint) = endpoint_of(path) else {
        return Err(RequestFault::NotFound);
    };
    if method != b"GET".as_slice() {
        return Err(RequestFault::Method);
    }
    request_in(alloc, endpoint, query)
}
