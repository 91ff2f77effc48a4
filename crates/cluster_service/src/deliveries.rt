//! Finds the block that has a transaction: among the entries of a history from one on, or among the blocks above a height.
ghost use Rattle.std.specs.Prelude.{◌≡◌, ◌<◌, drop, position, IfNone, IfSome};
ghost use Rattle.std.specs.Str.{bytes_eq};
ghost use Rattle.ledger_model.specs.Commits.{commits_of};
ghost use Rattle.locked_replica.specs.Views.{reply_lent};
ghost use Rattle.cluster_service.specs.Inquiries.{IsUndelivered};
ghost use Rattle.cluster_service.specs.Deliveries.{IsDelivery, code_for, code_in, delivered_by, delivered_in};

use abci::Application;
use ledger_model::{BlockResult, Height, Tx};
use locked_replica::{ReplyView, State};

/// The place of the first of these transactions that is this one.
fn place_of(txs: &[Tx], tx: &[u8]) -> Option<usize>
    ensures { result ≡ position (λ t. bytes_eq t tx.now) txs.now }
{
    txs.iter().position(|found| found.as_bytes() == tx)
}

/// The code for the first of these transactions that is this one.
fn code_for(txs: &[Tx], codes: &[u32], tx: &[u8]) -> Option<u32>
    ensures { result ≡ code_for txs.now codes.now tx.now }
{
    match place_of(txs, tx) {
        Some(place) => codes.get(place).copied(),
        None => None,
    }
}

/// The code for a transaction in a block that the replica ran.
fn code_in<A: Application>(state: &State<A>, block: &BlockResult, tx: &[u8]) -> Option<u32>
    ensures { result ≡ code_in (commits_of state.now.config state.now.id state.now.entries) block.now tx.now }
{
    match state.block(block.height) {
        Some(batch) => code_for(batch.transactions(), block.codes.as_slice(), tx),
        None => None,
    }
}

/// The height of the block and the code for a transaction, if this entry ran a block that has it.
fn delivered_at<A: Application>(
    state: &State<A>,
    reply: &ReplyView<'_>,
    tx: &[u8],
) -> Option<(Height, u32)>
    ensures { result ≡ delivered_by (commits_of state.now.config state.now.id state.now.entries) (reply_lent reply.now) tx.now }
{
    match reply {
        ReplyView::Executed(Ok(block)) => match code_in(state, block, tx) {
            Some(code) => Some((block.height, code)),
            None => None,
        },
        _ => None,
    }
}

/// The height of the first block that has the transaction, and the application's code for it, among the entries from this one on.
pub(crate) fn delivered_after<A: Application>(
    state: &State<A>,
    first: usize,
    tx: &[u8],
) -> Option<(Height, u32)>
    ensures found { result ≡ delivered_in (commits_of state.now.config state.now.id state.now.entries) (drop first state.now.entries) tx.now }
    // The results as HTTP sees them.
    ensures undelivered { IfNone result (IsUndelivered A.meaning tx.now first state.now) }
    ensures delivery { IfSome result (λ found. IsDelivery A.meaning tx.now first found.0 found.1 state.now) }
{
    for index in first..state.len() {
        let Some(entry) = state.entry(index) else {
            unreachable!();
        };
        match delivered_at(state, &entry.reply(), tx) {
            Some(found) => return Some(found),
            None => {}
        }
    }
    None
}

/// The least height above this one at which the replica's block has the transaction.
pub(crate) fn height_above<A: Application>(
    state: &State<A>,
    above: u32,
    tx: &[u8],
) -> Option<Height>
    ensures { IfSome result (λ height. above < height) }
{
    for number in above..state.height() {
        let height = Height::new(number + 1);
        if let Some(batch) = state.block(height) {
            if place_of(batch.transactions(), tx).is_some() {
                return Some(height);
            }
        }
    }
    None
}

/// The application's code for the transaction in the block at this height. Only entries from the one on that ran the block are looked at.
fn code_at<A: Application>(state: &State<A>, height: Height, tx: &[u8]) -> Option<u32>
    ensures { IfSome result (λ code. IsDelivery A.meaning tx.now 0 height code state.now) }
{
    for index in (0..state.len()).rev() {
        let Some(entry) = state.entry(index) else {
            unreachable!();
        };
        match delivered_at(state, &entry.reply(), tx) {
            Some((found, code)) if found == height => return Some(code),
            _ => {}
        }
    }
    None
}

/// The height of the first block above this height that has the transaction, and the application's code for it.
pub(crate) fn delivered_above<A: Application>(
    state: &State<A>,
    above: u32,
    tx: &[u8],
) -> Option<(Height, u32)>
    ensures above { IfSome result (λ found. above < found.0) }
    // The result as HTTP sees it.
    ensures delivery { IfSome result (λ found. IsDelivery A.meaning tx.now 0 found.0 found.1 state.now) }
{
    let height = height_above(state, above, tx)?;
    let code = code_at(state, height, tx)?;
    Some((height, code))
}
