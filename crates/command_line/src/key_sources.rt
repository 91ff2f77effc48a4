//! Where the keys of a cluster come from, if the words don't have their seed: who calls `settings` finds them there.
ghost use Rattle.std.specs.Prelude.{◌≡◌, ◌↔◌, IsTrue, IfOk, IfErr, [], map};
ghost use Rattle.clap.specs.Words.{found_of, rows_of, subcommand_rows_of};
ghost use Rattle.cluster_setup.specs.declared.settings.Settings.{Settings};
ghost use Rattle.command_line.specs.Faults.{kinds_of};
ghost use Rattle.command_line.specs.Options.{AsksForRandom, IsSet, WantsMemory, options_of};
ghost use Rattle.command_line.specs.KeySources.{IsSource, IsSourceIn, IsSourceOf, NamesNoKeys};
ghost use Rattle.command_line.specs.declared.given_keys.GivenKeys.{GivenKeys};
ghost use Rattle.command_line.specs.declared.seed_words.SeedWords.{SeedWords};

use crate::given_keys::GivenKeys;
use crate::options::optional_text;
use crate::seed_words::SeedWords;
use crate::settings_of_words::{matches_of, settings_of};
use crate::usage_fault::UsageFault;
use app_states::Opening;
use clap::ArgMatches;
use std::alloc::{AllocError, Global};

/// Where the keys of a cluster come from.
#[derive(Clone, Copy, Debug, Drop, PartialEq, Eq)]
pub enum KeySource<'a> {
    /// From the seed in the words, or they have a fault.
    Words,
    /// From the seed in the file with this path.
    SeedFile(&'a str),
    /// From a seed of the system's random bytes.
    Random,
    /// From such a seed, which is written to a new file with this path.
    NewFile(&'a str),
    /// From the cluster's public file, which has this path.
    ClusterFile(&'a str),
}

/// What the subcommand of this name takes for `--seed`.
fn taken_by(name: &str) -> SeedWords
    ensures { result ≡ (options_of name.now).seed_words }
{
    match name {
        "cluster" | "serve" | "keys" => SeedWords::DigitsOrRandom,
        _ => SeedWords::Digits,
    }
}

/// Whether the words ask for a random seed.
pub(crate) fn asks_for_random(matches: &ArgMatches<'_>, taken: SeedWords) -> bool
    ensures { IsTrue result ↔ AsksForRandom taken (rows_of (found_of matches.now)) }
{
    match (taken, optional_text(matches, "seed")) {
        (SeedWords::DigitsOrRandom, Some(word)) => word == "random",
        _ => false,
    }
}

/// Where a random seed is kept.
fn random_source<'a>(matches: &ArgMatches<'a>) -> KeySource<'a>
    ensures { (taken : SeedWords) → NamesNoKeys (rows_of (found_of matches.now)) → AsksForRandom taken (rows_of (found_of matches.now))
        → IsSource taken (rows_of (found_of matches.now)) result }
{
    match optional_text(matches, "write-seed") {
        Some(file) => KeySource::NewFile(file),
        None => KeySource::Random,
    }
}

/// Where the keys of a subcommand with these matches come from.
fn source_in<'a>(matches: &ArgMatches<'a>, taken: SeedWords) -> KeySource<'a>
    ensures { IsSource taken (rows_of (found_of matches.now)) result }
{
    if let Some(file) = optional_text(matches, "cluster") {
        return KeySource::ClusterFile(file);
    }
    if let Some(file) = optional_text(matches, "seed-file") {
        return KeySource::SeedFile(file);
    }
    if asks_for_random(matches, taken) {
        random_source(matches)
    } else {
        KeySource::Words
    }
}

/// Where the keys of the subcommand in the matches come from.
fn source_of<'a>(matches: &ArgMatches<'a>) -> KeySource<'a>
    ensures { IsSourceIn (subcommand_rows_of matches.now) result }
{
    match matches.subcommand() {
        Some((name, options)) => source_in(options, taken_by(name)),
        None => KeySource::Words,
    }
}

/// Where the keys come from, for words that have no other fault.
fn source_of_words<'a, A: Opening>(
    alloc: Global,
    words: &'a [&'a str],
) -> Result<KeySource<'a>, UsageFault<'a>>
    ensures source { IfOk result (IsSourceOf A.words A.meaning (map (λ w. w.now) words.entry.now)) }
    ensures refused { IfErr result (λ e. kinds_of A.words (map (λ w. w.now) words.entry.now) ≡ []
        → (given : GivenKeys) (s : Settings) → IsSet A.words A.meaning given (map (λ w. w.now) words.entry.now) s → WantsMemory e) }
{
    let matches = matches_of::<A>(alloc, words)?;
    let source = source_of(&matches);
    if let KeySource::ClusterFile(_) = source {
        return Ok(source);
    }
    let given = GivenKeys {
        seed: Some([0; 32]),
        cluster: None,
    };
    let _settings = settings_of::<A>(alloc, &matches, given)?;
    Ok(source)
}

/// Where the keys come from that [`settings`](crate::settings) is given. If the words have a fault, whatever is given, they come from
/// nowhere else: `settings` tells the fault. But a cluster's file is named also for words with another fault. The first word is the
/// program's name.
///
/// The only error is allocation failure.
pub fn key_source<'a, A: Opening>(
    alloc: Global,
    words: &'a [&'a str],
) -> Result<KeySource<'a>, AllocError>
    ensures { IfOk result (IsSourceOf A.words A.meaning (map (λ w. w.now) words.entry.now)) }
{
    match source_of_words::<A>(alloc, words) {
        Ok(source) => Ok(source),
        Err(fault) if fault.is_want_of_memory() => Err(AllocError),
        Err(_) => Ok(KeySource::Words),
    }
}
