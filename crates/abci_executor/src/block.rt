//! The calls of one block: BeginBlock, DeliverTx for each transaction, EndBlock and Commit.
ghost use Rattle.std.specs.Prelude.{◌≡◌, ◌<◌, [], Some, IfOk, OnOk, OnErr};
ghost use Rattle.ledger_model.specs.Limits.{max_height};
ghost use Rattle.abci.specs.Meaning.{KeepsCommitted, LosesWork, without_work};
ghost use Rattle.abci_executor.specs.Blocks.{DeliversAll, AddsBlock};

use abci::Application;
use ledger_model::{Batch, BlockResult, Codes, Height, Tx};
use std::alloc::{AllocError, Global};

/// Runs the next block: makes the calls of ABCI 0.17.0 in the order that it prescribes, and returns their results.
///
/// The application's committed state must be one that fewer than [`Height::MAX`] blocks led to. An unfinished block is
/// dropped. The only error is allocation failure. It leaves the committed state and the height as they were, so that
/// the caller can run this block or another.
pub fn run_block<A: Application>(
    alloc: Global,
    app: &mut A,
    batch: &Batch,
) -> Result<BlockResult, AllocError>
    requires low { (A.machine app.old).height < max_height }
    ensures ok { IfOk result (λ block. AddsBlock A.meaning (without_work (A.machine app.old)) batch.now block (A.machine app.new)) }
    ensures err { OnErr result (LosesWork (A.machine app.old) (A.machine app.new)) }
{
    let room = Vec::with_capacity(alloc, batch.transactions().len())?;
    let height = Height::new(app.info().height + 1);
    app.begin_block(height)?;
    let codes = deliver_all(app, batch.transactions(), room)?;
    app.end_block()?;
    let hash = app.commit();
    Ok(BlockResult {
        height,
        codes,
        hash,
    })
}

/// DeliverTx for each transaction, in order. Pushes the codes to `room`.
fn deliver_all<A: Application>(
    app: &mut A,
    transactions: &[Tx],
    room: Vec<u32>,
) -> Result<Codes, AllocError>
    requires begun { (A.machine app.old).working ≡ Some (A.machine app.old).committed }
    requires empty { room.items ≡ [] }
    ensures goes_on { OnOk result (KeepsCommitted (A.machine app.old) (A.machine app.new)) }
    ensures ok { IfOk result (λ codes. DeliversAll A.meaning (A.machine app.old) transactions.now codes (A.machine app.new)) }
    ensures err { OnErr result (LosesWork (A.machine app.old) (A.machine app.new)) }
{
    let mut codes = room;
    for tx in transactions {
        let code = app.deliver_tx(tx)?;
        codes.push(code)?;
    }
    Ok(Codes::new(codes))
}
