//! Reads histories, one after another.
ghost use Rattle.std.specs.Prelude.{◌≡◌, List, None, Some, IfOk, IsErrOf, MatchResult};
ghost use Rattle.ledger_model.specs.declared.history.History.{History};
ghost use Rattle.history_bytes.specs.HistoryReading.{history_at, histories_reading};
ghost use Rattle.history_bytes.specs.HistoryLaws.{SpellsHistories, HistoriesSpelledAreRead, OneList};
ghost use Rattle.statements.specs.Reads.{IsReadFrom, IsFaultOf};

use crate::entry_reading::take_entries;
use crate::fault::HistoryFault;
use crate::input::Input;
use bytes::Bytes;
use ledger_model::{History, ReplicaId, Version};
use statements::DecodeFault;
use std::alloc::Global;

#[tactic(auto, unfolding(crate::specs::HistoryReading::history_at))]
fn take_history(version: Version, alloc: Global, input: &mut Input) -> Result<History, DecodeFault>
    ensures { IsReadFrom result input.new (history_at version input.old) }
{
    let replica = input.take_byte()?;
    let entries = take_entries(version, alloc, input)?;
    Ok(History {
        replica: ReplicaId::new(replica),
        entries,
    })
}

fn take_histories(
    version: Version,
    alloc: Global,
    input: &mut Input,
) -> Result<Vec<History>, DecodeFault>
    ensures { MatchResult result (λ histories. histories_reading version input.old ≡ Some histories.items)
        (λ fault. IsFaultOf fault (histories_reading version input.old)) }
{
    let mut histories = Vec::new(alloc);
    while !input.is_empty() {
        let history = take_history(version, alloc, input)?;
        histories.push(history)?;
    }
    Ok(histories)
}

/// The histories, of a cluster with frames of this version, that all of the bytes are, one after another: none if there is no byte.
/// `BadHistory` comes if the bytes are no such histories, `NoMemory` if memory ran out. A history may have any number of entries.
pub fn read_histories(
    version: Version,
    alloc: Global,
    bytes: Bytes,
) -> Result<Vec<History>, HistoryFault>
    // What is returned is the reading of the definitions.
    ensures read { IfOk result (λ histories. histories_reading version bytes ≡ Some histories.items) }
    // BadHistory comes only if there is no reading.
    ensures bad { IsErrOf result HistoryFault.BadHistory → histories_reading version bytes ≡ None }
    // The bytes encode the histories that are returned.
    ensures found { IfOk result (λ histories. SpellsHistories version bytes histories.items) }
    // If the bytes encode histories, those are returned, unless memory runs out.
    ensures only { (histories : List History) → SpellsHistories version bytes histories
        → MatchResult result (λ found. found.items ≡ histories) (λ fault. fault ≡ HistoryFault.NoMemory) }
    // By the definitions, histories are read back from their encodings.
    ensures again { HistoriesSpelledAreRead }
    // So bytes encode one list of histories at most.
    ensures one { OneList }
{
    match take_histories(version, alloc, &mut Input::new(&bytes)) {
        Ok(histories) => Ok(histories),
        Err(DecodeFault::Malformed) => Err(HistoryFault::BadHistory),
        Err(DecodeFault::NoMemory) => Err(HistoryFault::NoMemory),
    }
}
