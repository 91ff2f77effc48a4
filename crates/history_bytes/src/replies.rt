//! Appends encoded replies.
ghost use Rattle.std.specs.Prelude.{◌≡◌, ◌∷◌, ◌++◌, [], length, OnOk};
ghost use Rattle.std.specs.List.{flat_map};
ghost use Rattle.std.specs.Int.{w32, to_be_bytes};
ghost use Rattle.ledger_model.specs.Values.{value_bytes};
ghost use Rattle.history_bytes.specs.Histories.{refusal_bytes, addressee_number, sent_bytes, present_bytes, ended_bytes, block_bytes, answer_bytes, reply_bytes};

use crate::counts::{put_count_1, put_count_2};
use crate::events::put_short;
use ledger_model::{Addressee, BlockResult, QueryAnswer, Reply, RoundEnded, Sent, SubmitRefusal};
use octets::{put_bytes, put_u8, put_u32};
use statements::put_batch;
use std::alloc::AllocError;

/// Appends why a transaction was refused: the reason's number, followed by the application's code if it has one.
fn put_refusal(out: &mut Vec<u8>, refusal: SubmitRefusal) -> Result<(), AllocError>
    ensures { OnOk result (out.new.items ≡ out.old.items ++ refusal_bytes refusal) }
{
    put_u8(out, refusal.number())?;
    match refusal {
        SubmitRefusal::Rejected(code) => put_u32(out, code),
        _ => Ok(()),
    }
}

/// The number of an addressee: 255 is all.
fn addressee_number(addressee: Addressee) -> u8
    ensures { result ≡ addressee_number addressee }
{
    match addressee {
        Addressee::All => 255,
        Addressee::One(replica) => replica.number(),
    }
}

fn put_sent(out: &mut Vec<u8>, sent: &Sent) -> Result<(), AllocError>
    ensures { OnOk result (out.new.items ≡ out.old.items ++ sent_bytes sent.now) }
{
    put_u8(out, addressee_number(sent.addressee))?;
    put_bytes(out, &sent.frame)
}

fn put_frames(out: &mut Vec<u8>, frames: &[Sent]) -> Result<(), AllocError>
    ensures { OnOk result (out.new.items ≡ out.old.items ++ flat_map sent_bytes frames.now) }
{
    for sent in frames {
        put_sent(out, sent)?;
    }
    Ok(())
}

fn put_ended(out: &mut Vec<u8>, ended: &RoundEnded) -> Result<(), AllocError>
    ensures { OnOk result (out.new.items ≡ out.old.items ++ ended_bytes ended.now) }
{
    let frames = ended.frames.as_slice();
    put_u8(out, u8::from(ended.mute))?;
    put_count_2(out, frames.len())?;
    put_frames(out, frames)
}

fn put_codes(out: &mut Vec<u8>, codes: &[u32]) -> Result<(), AllocError>
    ensures { OnOk result (out.new.items ≡ out.old.items ++ flat_map (to_be_bytes w32) codes.now) }
{
    for code in codes {
        put_u32(out, *code)?;
    }
    Ok(())
}

fn put_block(out: &mut Vec<u8>, block: &BlockResult) -> Result<(), AllocError>
    ensures { OnOk result (out.new.items ≡ out.old.items ++ block_bytes block.now) }
{
    let codes = block.codes.as_slice();
    put_u32(out, block.height.number())?;
    put_count_1(out, codes.len())?;
    put_codes(out, codes)?;
    put_bytes(out, &block.hash)
}

fn put_answer(out: &mut Vec<u8>, answer: &QueryAnswer) -> Result<(), AllocError>
    ensures { OnOk result (out.new.items ≡ out.old.items ++ answer_bytes answer.now) }
{
    put_u32(out, answer.height.number())?;
    match &answer.value {
        None => put_u8(out, 0),
        Some(value) => {
            put_u8(out, 1)?;
            put_short(out, value)
        }
    }
}

/// Appends a reply: the number of its event; 0 if the event succeeded, followed by its result; or otherwise why it didn't.
pub(crate) fn put_reply(out: &mut Vec<u8>, reply: &Reply) -> Result<(), AllocError>
    ensures { OnOk result (out.new.items ≡ out.old.items ++ reply_bytes reply.now) }
{
    match reply {
        Reply::Submitted(Ok(())) => put_bytes(out, &[1, 0]),
        Reply::Submitted(Err(refusal)) => {
            put_u8(out, 1)?;
            put_refusal(out, *refusal)
        }
        Reply::Proposed(Ok(batch)) => {
            put_bytes(out, &[2, 0])?;
            put_batch(out, batch)
        }
        Reply::Proposed(Err(refusal)) => put_bytes(out, &[2, refusal.number()]),
        Reply::Delivered(Ok(())) => put_bytes(out, &[3, 0]),
        Reply::Delivered(Err(cause)) => put_bytes(out, &[3, cause.number()]),
        Reply::RoundEnded(Ok(ended)) => {
            put_bytes(out, &[4, 0])?;
            put_ended(out, ended)
        }
        Reply::RoundEnded(Err(_)) => put_bytes(out, &[4, 1]),
        Reply::Executed(Ok(block)) => {
            put_bytes(out, &[5, 0])?;
            put_block(out, block)
        }
        Reply::Executed(Err(_)) => put_bytes(out, &[5, 1]),
        Reply::Queried(Ok(answer)) => {
            put_bytes(out, &[6, 0])?;
            put_answer(out, answer)
        }
        Reply::Queried(Err(_)) => put_bytes(out, &[6, 1]),
        Reply::Retired(Ok(floor)) => {
            put_bytes(out, &[7, 0])?;
            put_u32(out, floor.number())
        }
        Reply::Retired(Err(refusal)) => put_bytes(out, &[7, refusal.number()]),
    }
}
