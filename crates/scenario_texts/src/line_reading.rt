//! What one more line adds to the scenario that was read so far.
ghost use Rattle.std.specs.Prelude.{◌≡◌, ◌==◌, map, option_map, IfOk, Some, None, if◌then◌else◌};
ghost use Rattle.std.specs.Char.{is_ascii};
ghost use Rattle.std.specs.List.{list_all, list_any};
ghost use Rattle.scenario_texts.specs.Plans.{plan_of};
ghost use Rattle.scenario_texts.specs.Reading.{ascii_of, begun_of, with_keys, is_new_liar, with_liar, has_setup_alone, with_frames, with_command, going_on, first_plan, next_by_keyword, next_by_words, next_of};

use crate::batch::words;
use crate::command_reading::command;
use crate::fields::{one_number, two_numbers};
use crate::keyword::{Keyword, keyword_of};
use crate::scenario::{Scenario, Setup};
use crate::setup_reading::{config, params};
use ledger_model::{AppKinds, ReplicaId, Version};
use std::alloc::{AllocError, Global};

/// The scenario that consists of the cluster.
#[tactic(auto, unfolding(crate::specs::Reading::begun_of))]
fn begun(alloc: Global, kinds: AppKinds, fields: &[&str]) -> Option<Scenario>
    ensures { option_map plan_of result ≡ begun_of kinds (map (λ field. field.now) fields.now) }
{
    let config = config(kinds, fields)?;
    Some(Scenario {
        setup: Setup {
            config,
            keys: None,
            liars: Vec::new(alloc),
        },
        commands: Vec::new(alloc),
    })
}

/// Whether no version, no liar and no command was read.
#[tactic(auto, unfolding(crate::specs::Reading::has_setup_alone))]
fn is_early(scenario: &Scenario) -> bool
    ensures { result ≡ has_setup_alone (plan_of scenario.now) }
{
    let setup = &scenario.setup;
    matches!(setup.config.frames, Version::One)
        && setup.liars.is_empty()
        && scenario.commands.is_empty()
}

/// Sets the parameter set of a line. No parameter set, no version, no liar and no command may have come before it.
#[tactic(auto, unfolding(crate::specs::Reading::with_keys))]
fn with_keys(mut scenario: Scenario, fields: &[&str]) -> Option<Scenario>
    ensures { option_map plan_of result ≡ with_keys (plan_of scenario) (map (λ field. field.now) fields.now) }
{
    let keys = params(two_numbers(fields)?)?;
    if scenario.setup.keys.is_some() || !is_early(&scenario) {
        return None;
    }
    scenario.setup.keys = Some(keys);
    Some(scenario)
}

/// Sets version 2 for the frames, if that is the line's version. No version, no liar and no command may have come before it.
#[tactic(auto, unfolding(crate::specs::Reading::with_frames))]
fn with_frames(mut scenario: Scenario, fields: &[&str]) -> Option<Scenario>
    ensures { option_map plan_of result ≡ with_frames (plan_of scenario) (map (λ field. field.now) fields.now) }
{
    let [version] = fields else {
        return None;
    };
    if *version != "2" || !is_early(&scenario) {
        return None;
    }
    scenario.setup.config.frames = Version::Two;
    Some(scenario)
}

/// Whether the replica with this number is among the liars.
fn is_among(liars: &[ReplicaId], number: u32) -> bool
    ensures { result ≡ list_any (λ liar. liar == number) liars.now }
{
    let is_it = |liar: &ReplicaId| -> bool
        ensures { result ≡ (liar.now == number) }
    { u32::from(liar.number()) == number };
    liars.iter().any(is_it)
}

/// The replica with this number, if it may be named as another liar.
#[tactic(auto, unfolding(crate::specs::Reading::is_new_liar))]
fn new_liar(scenario: &Scenario, number: u32) -> Option<ReplicaId>
    ensures { result ≡ (if is_new_liar (plan_of scenario.now) number then Some number else None) }
{
    let setup = &scenario.setup;
    if !scenario.commands.is_empty() || setup.liars.len() >= usize::from(setup.config.faults) {
        return None;
    }
    if is_among(setup.liars.as_slice(), number) || number >= u32::from(setup.config.replicas) {
        return None;
    }
    Some(ReplicaId::new(number as u8))
}

/// Adds the liar of a line.
#[tactic(auto, unfolding(crate::specs::Reading::with_liar))]
fn with_liar(mut scenario: Scenario, fields: &[&str]) -> Result<Option<Scenario>, AllocError>
    ensures { IfOk result (λ found. option_map plan_of found ≡ with_liar (plan_of scenario) (map (λ field. field.now) fields.now)) }
{
    let Some(number) = one_number(fields) else {
        return Ok(None);
    };
    let Some(liar) = new_liar(&scenario, number) else {
        return Ok(None);
    };
    scenario.setup.liars.push(liar)?;
    Ok(Some(scenario))
}

/// Adds the command of a line.
#[tactic(auto, unfolding(crate::specs::Reading::with_command))]
fn with_command(
    alloc: Global,
    mut scenario: Scenario,
    keyword: Keyword,
    fields: &[&str],
) -> Result<Option<Scenario>, AllocError>
    ensures { IfOk result (λ found. option_map plan_of found ≡ with_command (plan_of scenario) keyword (map (λ field. field.now) fields.now)) }
{
    let setup = &scenario.setup;
    let version = setup.config.frames;
    let Some(command) = command(version, alloc, setup.liars.as_slice(), keyword, fields)? else {
        return Ok(None);
    };
    scenario.commands.push(command)?;
    Ok(Some(scenario))
}

/// The scenario after one more line.
#[tactic(auto, unfolding(crate::specs::Reading::going_on))]
fn going_on(
    alloc: Global,
    scenario: Scenario,
    keyword: Keyword,
    fields: &[&str],
) -> Result<Option<Scenario>, AllocError>
    ensures { IfOk result (λ found. option_map plan_of found ≡ going_on (plan_of scenario) keyword (map (λ field. field.now) fields.now)) }
{
    match keyword {
        Keyword::Config => Ok(None),
        Keyword::Keys => Ok(with_keys(scenario, fields)),
        Keyword::Frames => Ok(with_frames(scenario, fields)),
        Keyword::Liar => with_liar(scenario, fields),
        _ => with_command(alloc, scenario, keyword, fields),
    }
}

/// The scenario that starts with this line.
#[tactic(auto, unfolding(crate::specs::Reading::first_plan))]
fn beginning(alloc: Global, kinds: AppKinds, keyword: Keyword, fields: &[&str]) -> Option<Scenario>
    ensures { option_map plan_of result ≡ first_plan kinds keyword (map (λ field. field.now) fields.now) }
{
    match keyword {
        Keyword::Config => begun(alloc, kinds, fields),
        _ => None,
    }
}

/// The scenario after one more line, given the line's keyword and fields; the first line starts it.
#[tactic(auto, unfolding(crate::specs::Reading::next_by_keyword))]
fn next_by_keyword(
    alloc: Global,
    kinds: AppKinds,
    so_far: Option<Scenario>,
    keyword: Keyword,
    fields: &[&str],
) -> Result<Option<Scenario>, AllocError>
    ensures { IfOk result (λ found. option_map plan_of found ≡ next_by_keyword kinds (option_map plan_of so_far) keyword (map (λ field. field.now) fields.now)) }
{
    match so_far {
        None => Ok(beginning(alloc, kinds, keyword, fields)),
        Some(scenario) => going_on(alloc, scenario, keyword, fields),
    }
}

/// The scenario after one more line, given the line's words.
#[tactic(auto, unfolding(crate::specs::Reading::next_by_words))]
fn next_by_words(
    alloc: Global,
    kinds: AppKinds,
    so_far: Option<Scenario>,
    words: &[&str],
) -> Result<Option<Scenario>, AllocError>
    ensures { IfOk result (λ found. option_map plan_of found ≡ next_by_words kinds (option_map plan_of so_far) (map (λ word. word.now) words.now)) }
{
    let [first, fields @ ..] = words else {
        return Ok(None);
    };
    let Some(keyword) = keyword_of(first) else {
        return Ok(None);
    };
    next_by_keyword(alloc, kinds, so_far, keyword, fields)
}

/// Whether each byte is ASCII.
fn is_ascii(line: &[u8]) -> bool
    ensures { result ≡ list_all is_ascii line.now }
{
    line.iter().all(|byte| byte.is_ascii())
}

/// The line as text, if each byte of it is ASCII.
#[tactic(auto, unfolding(crate::specs::Reading::ascii_of))]
fn ascii(line: &[u8]) -> Option<&str>
    ensures { option_map (λ text. text.now) result ≡ ascii_of line.now }
{
    if !is_ascii(line) {
        return None;
    }
    str::from_utf8(line).ok()
}

/// The scenario after one more line that counts; `None` if the line is bad.
#[tactic(auto, unfolding(crate::specs::Reading::next_of))]
pub(crate) fn next(
    alloc: Global,
    kinds: AppKinds,
    so_far: Option<Scenario>,
    line: &[u8],
) -> Result<Option<Scenario>, AllocError>
    ensures { IfOk result (λ found. option_map plan_of found ≡ next_of kinds (option_map plan_of so_far) line.now) }
{
    let Some(line) = ascii(line) else {
        return Ok(None);
    };
    let words = words(alloc, line, ' ')?;
    next_by_words(alloc, kinds, so_far, words.as_slice())
}
