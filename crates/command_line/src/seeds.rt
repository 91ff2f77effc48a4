//! Reads the seed of all keys: that of `--seed`, or one that is given because the words name a file for it, or ask for a random one.
ghost use Rattle.std.specs.Prelude.{◌≡◌, ◌⊎◌, ◌∷◌, ◌++◌, ℕ, List, [], IfOk, IfErr, OnErr, IfSome, IfNone, Option, Some, None, Ok, codes, length};
ghost use Rattle.hex.specs.Hex.{decode_sized};
ghost use Rattle.clap.specs.Words.{found_of, rows_of, first_of};
ghost use Rattle.ledger_model.specs.declared.config.AppKinds.{AppKinds};
ghost use Rattle.ledger_model.specs.Meanings.{Meanings};
ghost use Rattle.command_line.specs.Faults.{IsRightOf};
ghost use Rattle.command_line.specs.Options.{HasSeed, IsDrawn, IsFileSeed, IsSeed, IsWordSeed, OptionTable};
ghost use Rattle.command_line.specs.Seeds.{IsSeedIn};

use crate::options::{is_named, optional_text, text};
use crate::seed_words::SeedWords;
use crate::usage_fault::UsageFault;
use clap::ArgMatches;
use hex::FromHex;

/// The seed that was drawn, if the word asks for one and there is one.
fn drawn_seed(word: &str, taken: SeedWords, given: Option<[u8; 32]>) -> Option<[u8; 32]>
    ensures some { IfSome result (λ s. IsDrawn taken given word.now s) }
    ensures none { IfNone result ((s : List ℕ) → IsDrawn taken given word.now s → ⊥) }
{
    match taken {
        SeedWords::DigitsOrRandom if word == "random" => given,
        _ => None,
    }
}

/// The seed of `--seed`.
fn word_seed<'a>(
    matches: &ArgMatches<'a>,
    taken: SeedWords,
    given: Option<[u8; 32]>,
) -> Result<[u8; 32], UsageFault<'a>>
    ensures some { IfOk result (λ s. IsWordSeed taken given (rows_of (found_of matches.now)) s) }
    ensures none { OnErr result ((s : List ℕ) → IsWordSeed taken given (rows_of (found_of matches.now)) s → ⊥) }
    ensures right { (kinds : AppKinds) (meaning : Meanings) (table : OptionTable) → HasSeed kinds taken table
        → first_of (codes "seed-file") (rows_of (found_of matches.now)) ≡ None
        → IfErr result (IsRightOf kinds meaning given table (rows_of (found_of matches.now))) }
{
    let word = text(matches, "seed")?;
    if let Some(seed) = drawn_seed(word, taken, given) {
        return Ok(seed);
    }
    match <[u8; 32] as FromHex>::from_hex(word) {
        Ok(seed) => Ok(seed),
        Err(_) => Err(UsageFault::Seed { taken, word }),
    }
}

/// The seed that was read from the file that the words name.
fn file_seed<'a>(
    matches: &ArgMatches<'a>,
    file: &'a str,
    given: Option<[u8; 32]>,
) -> Result<[u8; 32], UsageFault<'a>>
    ensures some { IfOk result (λ s. IsFileSeed file.now given (rows_of (found_of matches.now)) s) }
    ensures none { OnErr result ((s : List ℕ) → IsFileSeed file.now given (rows_of (found_of matches.now)) s → ⊥) }
    ensures right { (kinds : AppKinds) (meaning : Meanings) (taken : SeedWords) (table : OptionTable) → HasSeed kinds taken table
        → first_of (codes "seed-file") (rows_of (found_of matches.now)) ≡ Some file.now
        → IfErr result (IsRightOf kinds meaning given table (rows_of (found_of matches.now))) }
{
    if is_named(matches, "seed") {
        return Err(UsageFault::TwoSeeds);
    }
    if file == "-" {
        return Err(UsageFault::SeedFile(file));
    }
    match given {
        Some(seed) => Ok(seed),
        None => Err(UsageFault::SeedFile(file)),
    }
}

/// The seed of all keys, where `--seed` takes these words, and this seed was read from a file or drawn.
pub(crate) fn seed<'a>(
    matches: &ArgMatches<'a>,
    taken: SeedWords,
    given: Option<[u8; 32]>,
) -> Result<[u8; 32], UsageFault<'a>>
    ensures some { IfOk result (λ s. IsSeed taken given (rows_of (found_of matches.now)) s) }
    ensures none { OnErr result ((s : List ℕ) → IsSeed taken given (rows_of (found_of matches.now)) s → ⊥) }
    ensures right { (kinds : AppKinds) (meaning : Meanings) (table : OptionTable) → HasSeed kinds taken table
        → IfErr result (IsRightOf kinds meaning given table (rows_of (found_of matches.now))) }
{
    match optional_text(matches, "seed-file") {
        Some(file) => file_seed(matches, file, given),
        None => word_seed(matches, taken, given),
    }
}

/// The seed that the bytes of a file are: 64 hexadecimal digits, with or without a line feed behind them, or else the seed itself, 32 bytes.
pub fn seed_of_bytes(bytes: &[u8]) -> Option<[u8; 32]>
    ensures some { IfSome result (IsSeedIn bytes.now) }
    ensures none { IfNone result ((seed : List ℕ) → IsSeedIn bytes.now seed → ⊥) }
{
    if bytes.len() == 32 {
        let mut seed = [0; 32];
        seed.copy_from_slice(bytes);
        return Some(seed);
    }
    if let Ok(seed) = <[u8; 32] as FromHex>::from_hex(bytes) {
        return Some(seed);
    }
    let (last, digits) = bytes.split_last()?;
    if *last != b'\n' {
        return None;
    }
    <[u8; 32] as FromHex>::from_hex(digits).ok()
}
