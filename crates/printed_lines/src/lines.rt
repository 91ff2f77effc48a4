//! Appends each kind of line.
ghost use Rattle.std.specs.Prelude.{◌≡◌, ◌++◌, OnOk, codes, decimal};
ghost use Rattle.std.specs.List.{flat_map};
ghost use Rattle.std.specs.Option.{option_copied};
ghost use Rattle.std.specs.Result.{result_map_both};
ghost use Rattle.printed_lines.specs.Lines.{with_line_feed, batch_text_of, submit_refusal_text, submitted_text, proposed_text, retired_text, delivered_text, ended_round_text, last_round_text, decision_lines, codes_text, block_text, nothing_text, found_text, not_held_text, refusal_text, told_text};

use crate::text::Text;
use abci::Info;
use ledger_model::{
    Batch, BlockResult, Height, Ignored, NotHeld, NothingDecided, ProposeRefusal, QueryAnswer,
    ReplicaId, RetireRefusal, SubmitRefusal, WorldRefusal,
};
use std::alloc::AllocError;

/// The number of a refusal.
fn add_number(out: &mut Text, number: u8) -> Result<(), AllocError>
    ensures { OnOk result (out.new ≡ out.old ++ decimal number) }
{
    let text = format!(in out.allocator(); "{number}")?;
    out.add(&text)
}

/// The text of a refused step.
fn refusal_name(refusal: WorldRefusal) -> &'static str
    ensures { result.now ≡ refusal_text refusal }
{
    match refusal {
        WorldRefusal::NoSuchFrame => "refused 1",
        WorldRefusal::NoSuchReplica => "refused 2",
        WorldRefusal::Liar => "refused 3",
        WorldRefusal::HistoryFull => "refused 4",
        WorldRefusal::NoMemory => "refused 5",
    }
}

/// `refused 2`.
pub fn add_refusal(out: &mut Text, refusal: WorldRefusal) -> Result<(), AllocError>
    ensures { OnOk result (out.new ≡ out.old ++ with_line_feed (refusal_text refusal)) }
{
    out.add(refusal_name(refusal))?;
    out.add("\n")
}

/// The number of the reason for which a transaction was refused, with the application's code.
fn add_submit_refusal(out: &mut Text, refusal: SubmitRefusal) -> Result<(), AllocError>
    ensures { OnOk result (out.new ≡ out.old ++ submit_refusal_text refusal) }
{
    add_number(out, refusal.number())?;
    match refusal {
        SubmitRefusal::Rejected(code) => {
            let text = format!(in out.allocator(); " code {code}")?;
            out.add(&text)
        }
        _ => Ok(()),
    }
}

/// The start of a line, as in `propose R H `: a word, a replica and a height.
fn add_head(out: &mut Text, word: &str, replica: ReplicaId, height: u32) -> Result<(), AllocError>
    ensures { OnOk result (out.new ≡ out.old ++ word.now ++ codes " " ++ decimal replica ++ codes " " ++ decimal height ++ codes " ") }
{
    let number = replica.number();
    let head = format!(in out.allocator(); "{word} {number} {height} ")?;
    out.add(&head)
}

/// `submit R ok`, `submit R refused 3`, `submit R refused 5 code 2`.
pub(crate) fn add_submitted(
    out: &mut Text,
    replica: ReplicaId,
    answer: Result<(), SubmitRefusal>,
) -> Result<(), AllocError>
    ensures { OnOk result (out.new ≡ out.old ++ with_line_feed (submitted_text replica answer)) }
{
    let number = replica.number();
    let head = format!(in out.allocator(); "submit {number} ")?;
    out.add(&head)?;
    match answer {
        Ok(()) => out.add("ok\n"),
        Err(refusal) => {
            out.add("refused ")?;
            add_submit_refusal(out, refusal)?;
            out.add("\n")
        }
    }
}

/// `propose R H BATCH`, `propose R H refused 1`.
pub(crate) fn add_proposed(
    out: &mut Text,
    replica: ReplicaId,
    height: Height,
    answer: Result<&Batch, ProposeRefusal>,
) -> Result<(), AllocError>
    ensures { OnOk result (out.new ≡ out.old ++ with_line_feed (proposed_text replica height (result_map_both (λ b. b.now) (λ why. why) answer.entry))) }
{
    add_head(out, "propose", replica, height.number())?;
    match answer {
        Ok(batch) => out.add_batch(batch)?,
        Err(refusal) => {
            out.add("refused ")?;
            add_number(out, refusal.number())?;
        }
    }
    out.add("\n")
}

/// `retire R H ok`, `retire R H refused 1`.
pub(crate) fn add_retired(
    out: &mut Text,
    replica: ReplicaId,
    floor: Height,
    answer: Result<Height, RetireRefusal>,
) -> Result<(), AllocError>
    ensures { OnOk result (out.new ≡ out.old ++ with_line_feed (retired_text replica floor answer)) }
{
    add_head(out, "retire", replica, floor.number())?;
    match answer {
        Ok(_) => out.add("ok\n"),
        Err(refusal) => {
            out.add("refused ")?;
            add_number(out, refusal.number())?;
            out.add("\n")
        }
    }
}

/// `deliver R accepted`, `deliver R ignored 7 Repeated`.
pub(crate) fn add_delivered(
    out: &mut Text,
    replica: ReplicaId,
    answer: Result<(), Ignored>,
) -> Result<(), AllocError>
    ensures { OnOk result (out.new ≡ out.old ++ with_line_feed (delivered_text replica answer)) }
{
    let number = replica.number();
    let head = format!(in out.allocator(); "deliver {number} ")?;
    out.add(&head)?;
    match answer {
        Ok(()) => out.add("accepted\n"),
        Err(cause) => {
            out.add("ignored ")?;
            out.add(cause.text())?;
            out.add("\n")
        }
    }
}

/// `end R C sent S`, followed by ` mute` if the replica is mute.
pub(crate) fn add_end(
    out: &mut Text,
    replica: ReplicaId,
    clock: u32,
    sent: usize,
    is_mute: bool,
) -> Result<(), AllocError>
    ensures { OnOk result (out.new ≡ out.old ++ with_line_feed (ended_round_text replica clock sent is_mute)) }
{
    let number = replica.number();
    let head = format!(in out.allocator(); "end {number} {clock} sent {sent}")?;
    out.add(&head)?;
    out.add(if is_mute { " mute\n" } else { "\n" })
}

/// `end R last`.
pub(crate) fn add_last_end(out: &mut Text, replica: ReplicaId) -> Result<(), AllocError>
    ensures { OnOk result (out.new ≡ out.old ++ with_line_feed (last_round_text replica)) }
{
    let number = replica.number();
    let line = format!(in out.allocator(); "end {number} last\n")?;
    out.add(&line)
}

/// `decided R H BATCH`, if the height is decided.
pub(crate) fn add_decision(
    out: &mut Text,
    replica: ReplicaId,
    height: u32,
    decided: Option<&Batch>,
) -> Result<(), AllocError>
    ensures { OnOk result (out.new ≡ out.old ++ decision_lines replica height (option_copied decided.entry)) }
{
    let Some(batch) = decided else {
        return Ok(());
    };
    add_head(out, "decided", replica, height)?;
    out.add_batch(batch)?;
    out.add("\n")
}

/// Appends a batch, if there is one.
fn add_any_batch(out: &mut Text, batch: Option<&Batch>) -> Result<(), AllocError>
    ensures { OnOk result (out.new ≡ out.old ++ batch_text_of (option_copied batch.entry)) }
{
    match batch {
        Some(batch) => out.add_batch(batch),
        None => Ok(()),
    }
}

/// Appends codes, each preceded by a comma.
fn add_more_codes(out: &mut Text, more: &[u32]) -> Result<(), AllocError>
    ensures { OnOk result (out.new ≡ out.old ++ flat_map (λ code. codes "," ++ decimal code) more.now) }
{
    for code in more {
        let next = format!(in out.allocator(); ",{code}")?;
        out.add(&next)?;
    }
    Ok(())
}

/// The codes of a block: ` codes 0,0`.
fn add_codes(out: &mut Text, block: &BlockResult) -> Result<(), AllocError>
    ensures { OnOk result (out.new ≡ out.old ++ codes_text block.now.codes) }
{
    match block.codes.as_slice() {
        [] => out.add(" codes"),
        [first, rest @ ..] => {
            let head = format!(in out.allocator(); " codes {first}")?;
            out.add(&head)?;
            add_more_codes(out, rest)
        }
    }
}

/// `execute R H BATCH codes 0,0`, with the batch that was committed.
pub(crate) fn add_executed(
    out: &mut Text,
    replica: ReplicaId,
    batch: Option<&Batch>,
    block: &BlockResult,
) -> Result<(), AllocError>
    ensures { OnOk result (out.new ≡ out.old ++ with_line_feed (block_text replica (option_copied batch.entry) block.now)) }
{
    add_head(out, "execute", replica, block.height.number())?;
    add_any_batch(out, batch)?;
    add_codes(out, block)?;
    out.add("\n")
}

/// `execute R nothing`.
pub(crate) fn add_nothing(out: &mut Text, replica: ReplicaId) -> Result<(), AllocError>
    ensures { OnOk result (out.new ≡ out.old ++ with_line_feed (nothing_text replica)) }
{
    let number = replica.number();
    let line = format!(in out.allocator(); "execute {number} nothing\n")?;
    out.add(&line)
}

/// `query R H VALUE`, `query R H absent`.
pub(crate) fn add_found(
    out: &mut Text,
    replica: ReplicaId,
    answer: &QueryAnswer,
) -> Result<(), AllocError>
    ensures { OnOk result (out.new ≡ out.old ++ with_line_feed (found_text replica answer.now)) }
{
    add_head(out, "query", replica, answer.height.number())?;
    match &answer.value {
        Some(value) => out.add_bytes(value.as_slice())?,
        None => out.add("absent")?,
    }
    out.add("\n")
}

/// `query R refused 1`.
pub(crate) fn add_not_held(out: &mut Text, replica: ReplicaId) -> Result<(), AllocError>
    ensures { OnOk result (out.new ≡ out.old ++ with_line_feed (not_held_text replica)) }
{
    let number = replica.number();
    let line = format!(in out.allocator(); "query {number} refused 1\n")?;
    out.add(&line)
}

/// `info R H` and the hash of the application's state.
pub fn add_info(out: &mut Text, replica: ReplicaId, info: &Info) -> Result<(), AllocError>
    ensures { OnOk result (out.new ≡ out.old ++ with_line_feed (told_text replica info.now)) }
{
    let number = replica.number();
    let height = info.height;
    let hash = hex::encode(out.allocator(), &info.hash)?;
    let line = format!(in out.allocator(); "info {number} {height} {hash}\n")?;
    out.add(&line)
}
