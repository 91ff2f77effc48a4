//! The parameters of a query.
ghost use Rattle.std.specs.Prelude.{◌≡◌, option_map, IsErrOf, IsTrue};
ghost use Rattle.http_messages.specs.Faults.{IsExpected};
ghost use Rattle.http_messages.specs.Parameters.{value_of, required_bytes, optional_number, replica_in, is_given};
ghost use Rattle.http_messages.specs.declared.fault.Parameter.TheVariants as parameters;

use crate::fault::{Parameter, RequestFault};
use crate::values::{byte_string, decoded, written_number};
use form_urlencoded::raw_pairs;
use ledger_model::{Height, ReplicaId};
use std::alloc::Global;

/// The value of the first pair of this name, still encoded.
fn value_of<'q>(name: &[u8], query: &'q [u8]) -> Option<&'q [u8]>
    ensures { option_map (λ value. value.now) result ≡ value_of name.now query.now }
{
    for (written, value) in raw_pairs(query) {
        if written == name {
            return Some(value);
        }
    }
    None
}

/// The bytes that a parameter has, which must be there.
#[tactic(auto, unfolding(crate::specs::Parameters::required_bytes))]
pub(crate) fn required_bytes(
    alloc: Global,
    parameter: Parameter,
    query: &[u8],
) -> Result<Vec<u8>, RequestFault>
    ensures gives { IsExpected (λ bytes. bytes.items) result (required_bytes parameter query.now) }
    ensures memory { IsErrOf result RequestFault.NoMemory → IsTrue (is_given parameter query.now) }
{
    let Some(encoded) = value_of(parameter.name().as_bytes(), query) else {
        return Err(RequestFault::Parameter(parameter));
    };
    let text = decoded(alloc, encoded)?;
    match byte_string(alloc, &text)? {
        Some(bytes) => Ok(bytes),
        None => Err(RequestFault::Parameter(parameter)),
    }
}

/// The number below 2^32 that a parameter has, if it is there.
#[tactic(auto, unfolding(crate::specs::Parameters::optional_number))]
fn optional_number(
    alloc: Global,
    parameter: Parameter,
    query: &[u8],
) -> Result<Option<u32>, RequestFault>
    ensures gives { IsExpected (λ number. number) result (optional_number parameter query.now) }
    ensures memory { IsErrOf result RequestFault.NoMemory → IsTrue (is_given parameter query.now) }
{
    let Some(encoded) = value_of(parameter.name().as_bytes(), query) else {
        return Ok(None);
    };
    let text = decoded(alloc, encoded)?;
    match written_number(&text) {
        Some(number) => Ok(Some(number)),
        None => Err(RequestFault::Parameter(parameter)),
    }
}

/// The height that the query names, if it names one.
pub(crate) fn height_in(alloc: Global, query: &[u8]) -> Result<Option<Height>, RequestFault>
    ensures gives { IsExpected (λ height. height) result (optional_number parameters.Height query.now) }
    ensures memory { IsErrOf result RequestFault.NoMemory → IsTrue (is_given parameters.Height query.now) }
{
    match optional_number(alloc, Parameter::Height, query)? {
        Some(number) => Ok(Some(Height::new(number))),
        None => Ok(None),
    }
}

/// The replica that the query names, if it names one.
#[tactic(auto, using(crate::proofs::Steps::first_fault), unfolding(crate::specs::Parameters::replica_in))]
pub(crate) fn replica_in(alloc: Global, query: &[u8]) -> Result<Option<ReplicaId>, RequestFault>
    ensures gives { IsExpected (λ replica. replica) result (replica_in query.now) }
    ensures memory { IsErrOf result RequestFault.NoMemory → IsTrue (is_given parameters.Replica query.now) }
{
    match optional_number(alloc, Parameter::Replica, query)? {
        Some(number) => match u8::try_from(number) {
            Ok(replica) => Ok(Some(ReplicaId::new(replica))),
            Err(_) => Err(RequestFault::Parameter(Parameter::Replica)),
        },
        None => Ok(None),
    }
}
