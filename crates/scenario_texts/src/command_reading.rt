//! Reads the commands of a scenario, one from each line.
ghost use Rattle.std.specs.Prelude.{◌≡◌, ◌==◌, map, IfOk};
ghost use Rattle.scenario_texts.specs.Reading.{liar_of, lie_of, submit_of, inject_of, query_command, propose_of, retire_of, pass_of, simple_of, stale_of, command_of};

use crate::batch::batch;
use crate::command::{Command, Lie};
use crate::fields::{
    number, one_number, optional_bytes, optional_hex, positive, three_numbers, towards, two_numbers,
};
use crate::keyword::Keyword;
use bytes::Bytes;
use ledger_model::{Height, Key, Phase, ReplicaId, Version};
use std::alloc::{AllocError, Global};

/// The liar that the word names, if it names one.
#[tactic(auto, unfolding(crate::specs::Reading::liar_of))]
fn liar(liars: &[ReplicaId], word: &str) -> Option<ReplicaId>
    ensures { result ≡ liar_of liars.now word.now }
{
    let number = number(word)?;
    let is_named = |liar: &ReplicaId| -> bool
        ensures { result ≡ (liar.now == number) }
    { u32::from(liar.number()) == number };
    liars.iter().copied().find(is_named)
}

/// The lie that the fields `L H K BATCH TO` encode.
#[tactic(auto, unfolding(crate::specs::Reading::lie_of))]
fn lie(
    version: Version,
    alloc: Global,
    liars: &[ReplicaId],
    fields: &[&str],
) -> Result<Option<Lie>, AllocError>
    ensures { IfOk result (λ found. found ≡ lie_of version liars.now (map (λ field. field.now) fields.now)) }
{
    let [who, height, phase, what, to] = fields else {
        return Ok(None);
    };
    let Some(liar) = liar(liars, who) else {
        return Ok(None);
    };
    let Some(height) = positive(height) else {
        return Ok(None);
    };
    let Some(phase) = positive(phase) else {
        return Ok(None);
    };
    let Some(batch) = batch(version, alloc, what)? else {
        return Ok(None);
    };
    let Some(to) = towards(to) else {
        return Ok(None);
    };
    Ok(Some(Lie {
        version,
        liar,
        height: Height::new(height),
        phase: Phase::new(phase),
        batch,
        to,
    }))
}

/// `lie-stale L H K J BATCH TO`
#[tactic(auto, unfolding(crate::specs::Reading::stale_of))]
fn stale(
    version: Version,
    alloc: Global,
    liars: &[ReplicaId],
    fields: &[&str],
) -> Result<Option<Command>, AllocError>
    ensures { IfOk result (λ found. found ≡ stale_of version liars.now (map (λ field. field.now) fields.now)) }
{
    let [who, height, phase, source, what, to] = fields else {
        return Ok(None);
    };
    let Some(source) = positive(source) else {
        return Ok(None);
    };
    let Some(lie) = lie(version, alloc, liars, &[*who, *height, *phase, *what, *to])? else {
        return Ok(None);
    };
    Ok(Some(Command::LieStale {
        lie,
        source: Phase::new(source),
    }))
}

/// `submit R TX`
#[tactic(auto, unfolding(crate::specs::Reading::submit_of))]
fn submit(alloc: Global, fields: &[&str]) -> Result<Option<Command>, AllocError>
    ensures { IfOk result (λ found. found ≡ submit_of (map (λ field. field.now) fields.now)) }
{
    let [replica, rest @ ..] = fields else {
        return Ok(None);
    };
    let Some(replica) = number(replica) else {
        return Ok(None);
    };
    let Some(bytes) = optional_bytes(alloc, rest)? else {
        return Ok(None);
    };
    let bytes = Bytes::from_vec(bytes)?;
    Ok(Some(Command::Submit { replica, bytes }))
}

/// `inject TO HEX`
#[tactic(auto, unfolding(crate::specs::Reading::inject_of))]
fn inject(alloc: Global, fields: &[&str]) -> Result<Option<Command>, AllocError>
    ensures { IfOk result (λ found. found ≡ inject_of (map (λ field. field.now) fields.now)) }
{
    let [to, rest @ ..] = fields else {
        return Ok(None);
    };
    let Some(to) = number(to) else {
        return Ok(None);
    };
    let Some(bytes) = optional_hex(alloc, rest)? else {
        return Ok(None);
    };
    let bytes = Bytes::from_vec(bytes)?;
    Ok(Some(Command::Inject { to, bytes }))
}

/// `query R KEY`
#[tactic(auto, unfolding(crate::specs::Reading::query_command))]
fn query(alloc: Global, fields: &[&str]) -> Result<Option<Command>, AllocError>
    ensures { IfOk result (λ found. found ≡ query_command (map (λ field. field.now) fields.now)) }
{
    let [replica, rest @ ..] = fields else {
        return Ok(None);
    };
    let Some(replica) = number(replica) else {
        return Ok(None);
    };
    let Some(name) = optional_bytes(alloc, rest)? else {
        return Ok(None);
    };
    match Key::new(name) {
        Ok(key) => Ok(Some(Command::Query { replica, key })),
        Err(_) => Ok(None),
    }
}

/// `propose R H`
#[tactic(auto, unfolding(crate::specs::Reading::propose_of))]
fn propose(fields: &[&str]) -> Option<Command>
    ensures { result ≡ propose_of (map (λ field. field.now) fields.now) }
{
    let (replica, height) = two_numbers(fields)?;
    Some(Command::Propose {
        replica,
        height: Height::new(height),
    })
}

/// `retire R H`
#[tactic(auto, unfolding(crate::specs::Reading::retire_of))]
fn retire(fields: &[&str]) -> Option<Command>
    ensures { result ≡ retire_of (map (λ field. field.now) fields.now) }
{
    let (replica, floor) = two_numbers(fields)?;
    Some(Command::Retire {
        replica,
        floor: Height::new(floor),
    })
}

/// `pass FROM INDEX TO`
#[tactic(auto, unfolding(crate::specs::Reading::pass_of))]
fn pass(fields: &[&str]) -> Option<Command>
    ensures { result ≡ pass_of (map (λ field. field.now) fields.now) }
{
    let (from, index, to) = three_numbers(fields)?;
    Some(Command::Pass { from, index, to })
}

/// `end R`, `execute R`, `info R`, `silent` and `round`
#[tactic(auto, unfolding(crate::specs::Reading::simple_of))]
fn simple(keyword: Keyword, fields: &[&str]) -> Option<Command>
    ensures { result ≡ simple_of keyword (map (λ field. field.now) fields.now) }
{
    match (keyword, fields) {
        (Keyword::End, _) => Some(Command::End {
            replica: one_number(fields)?,
        }),
        (Keyword::Execute, _) => Some(Command::Execute {
            replica: one_number(fields)?,
        }),
        (Keyword::Info, _) => Some(Command::Info {
            replica: one_number(fields)?,
        }),
        (Keyword::Silent, []) => Some(Command::Silent),
        (Keyword::Round, []) => Some(Command::Round),
        _ => None,
    }
}

/// The command of a line, in a cluster with frames of this version and these liars.
#[tactic(auto, unfolding(crate::specs::Reading::command_of, crate::specs::Reading::lying_of))]
pub(crate) fn command(
    version: Version,
    alloc: Global,
    liars: &[ReplicaId],
    keyword: Keyword,
    fields: &[&str],
) -> Result<Option<Command>, AllocError>
    ensures { IfOk result (λ found. found ≡ command_of version liars.now keyword (map (λ field. field.now) fields.now)) }
{
    match keyword {
        Keyword::Submit => submit(alloc, fields),
        Keyword::Inject => inject(alloc, fields),
        Keyword::Query => query(alloc, fields),
        Keyword::Propose => Ok(propose(fields)),
        Keyword::Retire => Ok(retire(fields)),
        Keyword::Pass => Ok(pass(fields)),
        Keyword::LieReport => Ok(lie(version, alloc, liars, fields)?.map(Command::LieReport)),
        Keyword::LieLock => Ok(lie(version, alloc, liars, fields)?.map(Command::LieLock)),
        Keyword::LieAck => Ok(lie(version, alloc, liars, fields)?.map(Command::LieAck)),
        Keyword::LieStale => stale(version, alloc, liars, fields),
        _ => Ok(simple(keyword, fields)),
    }
}
