//! Takes what an application answers: a block's result, and the answer to a query.
ghost use Rattle.std.specs.Prelude.{◌≡◌};
ghost use Rattle.history_bytes.specs.HistoryReading.{codes_of, codes_at, block_result_at, present_at, answer_at};
ghost use Rattle.statements.specs.Reads.{IsReadFrom, ReadsAs};

use crate::event_reading::take_short;
use crate::input::Input;
use bytes::Bytes;
use ledger_model::{BlockResult, Codes, Height, QueryAnswer};
use statements::DecodeFault;
use std::alloc::Global;

fn codes_of(alloc: Global, input: &mut Input, count: u8) -> Result<Vec<u32>, DecodeFault>
    ensures { ReadsAs (λ codes. codes.items) result input.new (codes_of count input.old) }
{
    let mut codes = Vec::new(alloc);
    for _ in 0..count {
        let code = input.take_u32()?;
        codes.push(code)?;
    }
    Ok(codes)
}

/// Takes codes after their number in one byte.
#[tactic(auto, unfolding(crate::specs::HistoryReading::codes_at))]
fn take_codes(alloc: Global, input: &mut Input) -> Result<Codes, DecodeFault>
    ensures { IsReadFrom result input.new (codes_at input.old) }
{
    let count = input.take_byte()?;
    let codes = codes_of(alloc, input, count)?;
    Ok(Codes::new(codes))
}

/// Takes the result of a block that was run.
#[tactic(auto, unfolding(crate::specs::HistoryReading::block_result_at))]
pub(crate) fn take_block(alloc: Global, input: &mut Input) -> Result<BlockResult, DecodeFault>
    ensures { IsReadFrom result input.new (block_result_at input.old) }
{
    let height = input.take_u32()?;
    let codes = take_codes(alloc, input)?;
    let mut hash = [0; 32];
    hash.copy_from_slice(input.take_slice(32)?);
    Ok(BlockResult {
        height: Height::new(height),
        codes,
        hash,
    })
}

#[tactic(auto, unfolding(crate::specs::HistoryReading::present_at))]
fn take_present(input: &mut Input) -> Result<Option<Bytes>, DecodeFault>
    ensures { IsReadFrom result input.new (present_at input.old) }
{
    if !input.take_flag()? {
        return Ok(None);
    }
    Ok(Some(take_short(input)?))
}

/// Takes the answer to a query.
#[tactic(auto, unfolding(crate::specs::HistoryReading::answer_at))]
pub(crate) fn take_answer(input: &mut Input) -> Result<QueryAnswer, DecodeFault>
    ensures { IsReadFrom result input.new (answer_at input.old) }
{
    let height = input.take_u32()?;
    let value = take_present(input)?;
    Ok(QueryAnswer {
        height: Height::new(height),
        value,
    })
}
