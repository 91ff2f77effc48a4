//! Reads the options of a command line from its matches.
ghost use Rattle.std.specs.Prelude.{◌≡◌, ◌↔◌, IsTrue, ℕ, List, [], ◌≤◌, ◌-◌, IfOk, IfErr, IfSome, IfNone, OnErr, Option, Some, None, codes, option_map, string_bytes};
ghost use Rattle.clap.specs.Words.{Row, found_of, rows_of, first_of};
ghost use Rattle.lm_ots.specs.Parameters.{bits_of, levels_of};
ghost use Rattle.ledger_model.specs.declared.config.AppKinds.{AppKinds};
ghost use Rattle.ledger_model.specs.declared.config.AppKinds.TheVariants.{Three};
ghost use Rattle.ledger_model.specs.Meanings.{Meanings};
ghost use Rattle.command_line.specs.Faults.{IsRightOf};
ghost use Rattle.command_line.specs.Options.{HasCluster, HasOption, IsAccepted, IsNamed, IsNumberWithin, IsWritten, NamesKind, OptionTable, SetsCluster, SetsKind, SetsLog, SetsPort, TakesNumber, TakesTransaction, WantsMemory, word_of};
ghost use Rattle.ledger_model.specs.Numbers.{kind_number, version_number};
ghost use Rattle.plain_text.specs.Transactions.{StandsFor};
ghost use Rattle.ledger_model.specs.Replies.{check_reply};
ghost use Rattle.ledger_model.specs.declared.config.AppKind.{AppKind};
ghost use Rattle.cluster_setup.specs.declared.cluster_seed.ClusterSeed.{ClusterSeed};
ghost use Rattle.cluster_setup.specs.declared.sign_settings.What.{What};
ghost use Rattle.log.specs.declared.level.LevelFilter.{LevelFilter};
ghost use Rattle.ledger_model.specs.declared.version.Version.{Version};
ghost use Rattle.lm_ots.specs.declared.params.Width.{Width};
ghost use Rattle.lm_ots.specs.declared.params.TreeHeight.{TreeHeight};

use crate::seed_words::SeedWords;
use crate::seeds::seed;
use crate::usage_fault::UsageFault;
use abci::CheckKind;
use app_states::Opening;
use clap::ArgMatches;
use clap::parser::ValueSource;
use cluster_setup::{ClusterSeed, What};
use ledger_model::{AppKind, AppKinds, Config, Tx, Version};
use lm_ots::{Params, TreeHeight, Width};
use log::LevelFilter;
use plain_text::{SpellingFault, decimal, written};
use std::alloc::{AllocError, Global};
use std::str::FromStr;

/// The text of an option, if the words or a default give it one.
pub(crate) fn optional_text<'a>(matches: &ArgMatches<'a>, name: &str) -> Option<&'a str>
    ensures { option_map (λ t. t.now) result ≡ first_of name.now (rows_of (found_of matches.now)) }
{
    matches.get_str(name)
}

/// The text of an option.
pub(crate) fn text<'a>(
    matches: &ArgMatches<'a>,
    name: &'static str,
) -> Result<&'a str, UsageFault<'a>>
    ensures some { IfOk result (λ t. first_of name.now (rows_of (found_of matches.now)) ≡ Some t.now) }
    ensures none { OnErr result (first_of name.now (rows_of (found_of matches.now)) ≡ None) }
    ensures right { (kinds : AppKinds) (meaning : Meanings) (given : Option (List ℕ)) (table : OptionTable) → HasOption kinds table name.now
        → IfErr result (IsRightOf kinds meaning given table (rows_of (found_of matches.now))) }
{
    match optional_text(matches, name) {
        Some(text) => Ok(text),
        None => Err(UsageFault::Missing(name)),
    }
}

/// An option that is a decimal number within its limits.
pub(crate) fn number<'a>(
    matches: &ArgMatches<'a>,
    name: &'static str,
    least: u32,
    most: u32,
) -> Result<u32, UsageFault<'a>>
    ensures some { IfOk result (λ n. IsNumberWithin (rows_of (found_of matches.now)) name.now least most n) }
    ensures none { OnErr result ((n : ℕ) → IsNumberWithin (rows_of (found_of matches.now)) name.now least most n → ⊥) }
    ensures right { (kinds : AppKinds) (meaning : Meanings) (given : Option (List ℕ)) (table : OptionTable) → TakesNumber kinds table (rows_of (found_of matches.now)) name.now least most
        → IfErr result (IsRightOf kinds meaning given table (rows_of (found_of matches.now))) }
{
    let text = text(matches, name)?;
    match decimal(text) {
        Some(number) if least <= number && number <= most => Ok(number),
        _ => Err(UsageFault::Number {
            option: name,
            least,
            most,
            word: text,
        }),
    }
}

/// An option that is a number below 256.
pub(crate) fn small_number<'a>(
    matches: &ArgMatches<'a>,
    name: &'static str,
    least: u8,
    most: u8,
) -> Result<u8, UsageFault<'a>>
    ensures some { IfOk result (λ n. IsNumberWithin (rows_of (found_of matches.now)) name.now least most n) }
    ensures none { OnErr result ((n : ℕ) → IsNumberWithin (rows_of (found_of matches.now)) name.now least most n → ⊥) }
    ensures right { (kinds : AppKinds) (meaning : Meanings) (given : Option (List ℕ)) (table : OptionTable) → TakesNumber kinds table (rows_of (found_of matches.now)) name.now least most
        → IfErr result (IsRightOf kinds meaning given table (rows_of (found_of matches.now))) }
{
    let number = number(matches, name, u32::from(least), u32::from(most))?;
    Ok(number as u8)
}

/// An option that is a port, if the words contain it.
pub(crate) fn optional_port<'a>(
    matches: &ArgMatches<'a>,
    name: &'static str,
) -> Result<Option<u16>, UsageFault<'a>>
    ensures some { IfOk result (λ port. SetsPort (rows_of (found_of matches.now)) name.now port) }
    ensures none { OnErr result ((port : Option ℕ) → SetsPort (rows_of (found_of matches.now)) name.now port → ⊥) }
    ensures right { (kinds : AppKinds) (meaning : Meanings) (given : Option (List ℕ)) (table : OptionTable) → TakesNumber kinds table (rows_of (found_of matches.now)) name.now 0 65535
        → IfErr result (IsRightOf kinds meaning given table (rows_of (found_of matches.now))) }
{
    if optional_text(matches, name).is_none() {
        return Ok(None);
    }
    let port = number(matches, name, 0, 65_535)?;
    Ok(Some(port as u16))
}

/// The bytes that the text of an option encodes.
fn bytes<'a>(alloc: Global, option: &'static str, text: &'a str) -> Result<Vec<u8>, UsageFault<'a>>
    ensures some { IfOk result (λ v. StandsFor text.now v.items) }
    ensures none { IfErr result (λ e. (v : List ℕ) → StandsFor text.now v → WantsMemory e) }
    ensures right { (kinds : AppKinds) (meaning : Meanings) (given : Option (List ℕ)) (table : OptionTable) → TakesTransaction kinds table option.now
        → (rows : List Row) → first_of option.now rows ≡ Some text.now → IfErr result (IsRightOf kinds meaning given table rows) }
{
    match written(alloc, text) {
        Ok(bytes) => Ok(bytes),
        Err(SpellingFault::NoMemory) => Err(UsageFault::NoMemory),
        Err(fault) => Err(UsageFault::Spelling { option, fault }),
    }
}

/// An option that is one transaction.
pub(crate) fn transaction<'a>(
    alloc: Global,
    matches: &ArgMatches<'a>,
    name: &'static str,
) -> Result<Tx, UsageFault<'a>>
    ensures some { IfOk result (λ tx. IsWritten (rows_of (found_of matches.now)) name.now tx) }
    ensures none { IfErr result (λ e. (tx : List ℕ) → IsWritten (rows_of (found_of matches.now)) name.now tx → WantsMemory e) }
    ensures right { (kinds : AppKinds) (meaning : Meanings) (given : Option (List ℕ)) (table : OptionTable) → TakesTransaction kinds table name.now
        → IfErr result (IsRightOf kinds meaning given table (rows_of (found_of matches.now))) }
{
    let text = text(matches, name)?;
    let bytes = bytes(alloc, name, text)?;
    let Ok(tx) = Tx::new(bytes) else {
        return Err(UsageFault::NoTransaction {
            option: name,
            word: text,
        });
    };
    Ok(tx)
}

/// The code that CheckTx of an application in its opening state returns for a transaction.
fn check_code<A: Opening>(alloc: Global, kind: AppKind, tx: &Tx) -> u32
    ensures { result ≡ check_reply A.meaning kind [] tx.now }
{
    A::opening(alloc, kind).check_tx(tx, CheckKind::New)
}

/// An option that is one transaction, for which CheckTx of an application in its opening state returns 0.
pub(crate) fn accepted_transaction<'a, A: Opening>(
    alloc: Global,
    matches: &ArgMatches<'a>,
    name: &'static str,
    kind: AppKind,
) -> Result<Tx, UsageFault<'a>>
    ensures some { IfOk result (λ tx. IsAccepted A.meaning (rows_of (found_of matches.now)) name.now kind tx) }
    ensures none { IfErr result (λ e. (tx : List ℕ) → IsAccepted A.meaning (rows_of (found_of matches.now)) name.now kind tx
        → WantsMemory e) }
    ensures right { (given : Option (List ℕ)) (table : OptionTable) → TakesTransaction A.words.kinds table name.now → SetsKind A.words.kinds (rows_of (found_of matches.now)) kind
        → IfErr result (IsRightOf A.words.kinds A.meaning given table (rows_of (found_of matches.now))) }
{
    let word = text(matches, name)?;
    let tx = transaction(alloc, matches, name)?;
    let code = check_code::<A>(alloc, kind, &tx);
    if code != 0 {
        return Err(UsageFault::Rejected {
            option: name,
            code,
            word,
        });
    }
    Ok(tx)
}

/// The word that names the statement to sign.
pub(crate) fn what<'a>(matches: &ArgMatches<'a>) -> Result<What, UsageFault<'a>>
    ensures some { IfOk result (λ w. first_of (codes "what") (rows_of (found_of matches.now)) ≡ Some (word_of w)) }
    ensures none { OnErr result ((w : What) → first_of (codes "what") (rows_of (found_of matches.now)) ≡ Some (word_of w) → ⊥) }
    ensures right { (kinds : AppKinds) (meaning : Meanings) (given : Option (List ℕ)) (table : OptionTable) → HasOption kinds table (codes "what")
        → IfErr result (IsRightOf kinds meaning given table (rows_of (found_of matches.now))) }
{
    let word = text(matches, "what")?;
    match word {
        "report" => Ok(What::Report),
        "ack" => Ok(What::Ack),
        _ => Err(UsageFault::What(word)),
    }
}

/// Which notices the operator reads: those that `--log` names, none if the words contain `--quiet`.
pub(crate) fn log_filter<'a>(matches: &ArgMatches<'a>) -> Result<LevelFilter, UsageFault<'a>>
    ensures some { IfOk result (λ level. SetsLog (rows_of (found_of matches.now)) level) }
    ensures none { OnErr result ((level : LevelFilter) → SetsLog (rows_of (found_of matches.now)) level → ⊥) }
    ensures right { (kinds : AppKinds) (meaning : Meanings) (given : Option (List ℕ)) (table : OptionTable) → HasOption kinds table (codes "log")
        → IfErr result (IsRightOf kinds meaning given table (rows_of (found_of matches.now))) }
{
    let word = text(matches, "log")?;
    let Ok(level) = LevelFilter::from_str(word) else {
        return Err(UsageFault::Level(word));
    };
    if is_named(matches, "quiet") {
        return Ok(LevelFilter::Off);
    }
    Ok(level)
}

/// The file that an option names, if the words contain that option.
pub(crate) fn file(
    alloc: Global,
    matches: &ArgMatches<'_>,
    name: &str,
) -> Result<Option<String>, AllocError>
    ensures { IfOk result (λ path. option_map string_bytes path ≡ first_of name.now (rows_of (found_of matches.now))) }
{
    match optional_text(matches, name) {
        Some(path) => Ok(Some(String::from_str(alloc, path)?)),
        None => Ok(None),
    }
}

/// Whether the words contain an option that has no value.
pub(crate) fn is_named(matches: &ArgMatches<'_>, name: &str) -> bool
    ensures { IsTrue result ↔ IsNamed (rows_of (found_of matches.now)) name.now }
{
    matches.value_source(name) == Some(ValueSource::CommandLine)
}

/// The option `--w`.
fn width<'a>(matches: &ArgMatches<'a>) -> Result<Width, UsageFault<'a>>
    ensures some { IfOk result (λ w. IsNumberWithin (rows_of (found_of matches.now)) (codes "w") 4 8 (bits_of w)) }
    ensures none { OnErr result ((w : Width) → IsNumberWithin (rows_of (found_of matches.now)) (codes "w") 4 8 (bits_of w) → ⊥) }
    ensures right { (kinds : AppKinds) (meaning : Meanings) (given : Option (List ℕ)) (table : OptionTable) → HasOption kinds table (codes "w")
        → IfErr result (IsRightOf kinds meaning given table (rows_of (found_of matches.now))) }
{
    let word = text(matches, "w")?;
    match number(matches, "w", 4, 8).ok() {
        Some(4) => Ok(Width::W4),
        Some(8) => Ok(Width::W8),
        _ => Err(UsageFault::Neither {
            option: "w",
            one: 4,
            other: 8,
            word,
        }),
    }
}

/// The option `--tree`.
fn tree_height<'a>(matches: &ArgMatches<'a>) -> Result<TreeHeight, UsageFault<'a>>
    ensures some { IfOk result (λ h. IsNumberWithin (rows_of (found_of matches.now)) (codes "tree") 5 10 (levels_of h)) }
    ensures none { OnErr result ((h : TreeHeight) → IsNumberWithin (rows_of (found_of matches.now)) (codes "tree") 5 10 (levels_of h) → ⊥) }
    ensures right { (kinds : AppKinds) (meaning : Meanings) (given : Option (List ℕ)) (table : OptionTable) → HasOption kinds table (codes "tree")
        → IfErr result (IsRightOf kinds meaning given table (rows_of (found_of matches.now))) }
{
    let word = text(matches, "tree")?;
    match number(matches, "tree", 5, 10).ok() {
        Some(5) => Ok(TreeHeight::H5),
        Some(10) => Ok(TreeHeight::H10),
        _ => Err(UsageFault::Neither {
            option: "tree",
            one: 5,
            other: 10,
            word,
        }),
    }
}

/// The option `--kind` in a program of the three; the kind of the program's own application in others.
fn kind<'a, A: Opening>(matches: &ArgMatches<'a>) -> Result<AppKind, UsageFault<'a>>
    ensures some { IfOk result (λ k. SetsKind A.words.kinds (rows_of (found_of matches.now)) k) }
    ensures none { OnErr result ((k : AppKind) → SetsKind A.words.kinds (rows_of (found_of matches.now)) k → ⊥) }
    ensures right { (meaning : Meanings) (given : Option (List ℕ)) (table : OptionTable)
        → (A.words.kinds ≡ Three → HasOption A.words.kinds table (codes "kind"))
        → IfErr result (IsRightOf A.words.kinds meaning given table (rows_of (found_of matches.now))) }
{
    match A::kinds() {
        AppKinds::Three => chosen_kind(matches),
        AppKinds::OwnAlone => Ok(AppKind::Own),
    }
}

/// The application of this name, one of the three. HTTP tells the same names (`kind_name` of `http_messages`).
fn named_kind(word: &str) -> Option<AppKind>
    ensures some { IfSome result (λ k. NamesKind k word.now) }
    ensures none { IfNone result ((k : AppKind) → NamesKind k word.now → ⊥) }
{
    match word {
        "kvstore" => Some(AppKind::KvStore),
        "counter" => Some(AppKind::Counter),
        "purse" => Some(AppKind::Purse),
        _ => None,
    }
}

/// The application whose number the option `--kind` is.
fn numbered_kind(matches: &ArgMatches<'_>) -> Option<AppKind>
    ensures some { IfSome result (λ k. IsNumberWithin (rows_of (found_of matches.now)) (codes "kind") 1 3 (kind_number k)) }
    ensures none { IfNone result ((k : AppKind) → IsNumberWithin (rows_of (found_of matches.now)) (codes "kind") 1 3 (kind_number k) → ⊥) }
{
    let Ok(number) = number(matches, "kind", 1, 3) else {
        return None;
    };
    AppKind::from_number(number)
}

/// The option `--kind`: the number of an application, or its name.
fn chosen_kind<'a>(matches: &ArgMatches<'a>) -> Result<AppKind, UsageFault<'a>>
    ensures some { IfOk result (λ k. SetsKind Three (rows_of (found_of matches.now)) k) }
    ensures none { OnErr result ((k : AppKind) → SetsKind Three (rows_of (found_of matches.now)) k → ⊥) }
    ensures right { (kinds : AppKinds) (meaning : Meanings) (given : Option (List ℕ)) (table : OptionTable) → HasOption kinds table (codes "kind")
        → IfErr result (IsRightOf kinds meaning given table (rows_of (found_of matches.now))) }
{
    let word = text(matches, "kind")?;
    if let Some(kind) = named_kind(word) {
        return Ok(kind);
    }
    match numbered_kind(matches) {
        Some(kind) => Ok(kind),
        None => Err(UsageFault::Kind(word)),
    }
}

/// The option `--frames`: the number of a version.
fn frames<'a>(matches: &ArgMatches<'a>) -> Result<Version, UsageFault<'a>>
    ensures some { IfOk result (λ v. IsNumberWithin (rows_of (found_of matches.now)) (codes "frames") 1 2 (version_number v)) }
    ensures none { OnErr result ((v : Version) → IsNumberWithin (rows_of (found_of matches.now)) (codes "frames") 1 2 (version_number v) → ⊥) }
    ensures right { (kinds : AppKinds) (meaning : Meanings) (given : Option (List ℕ)) (table : OptionTable) → TakesNumber kinds table (rows_of (found_of matches.now)) (codes "frames") 1 2
        → IfErr result (IsRightOf kinds meaning given table (rows_of (found_of matches.now))) }
{
    match number(matches, "frames", 1, 2)? {
        1 => Ok(Version::One),
        _ => Ok(Version::Two),
    }
}

/// The options of a cluster, where `--seed` takes these words, and this seed was read from a file or drawn.
pub(crate) fn cluster<'a, A: Opening>(
    matches: &ArgMatches<'a>,
    taken: SeedWords,
    given: Option<[u8; 32]>,
) -> Result<ClusterSeed, UsageFault<'a>>
    ensures some { IfOk result (λ c. SetsCluster A.words.kinds taken given (rows_of (found_of matches.now)) c) }
    ensures none { OnErr result ((c : ClusterSeed) → SetsCluster A.words.kinds taken given (rows_of (found_of matches.now)) c → ⊥) }
    ensures right { (meaning : Meanings) (table : OptionTable) → HasCluster A.words.kinds taken table
        → IfErr result (IsRightOf A.words.kinds meaning given table (rows_of (found_of matches.now))) }
{
    let replicas = small_number(matches, "n", 4, Config::MAX_REPLICAS)?;
    let faults = small_number(matches, "t", 1, 4)?;
    let kind = kind::<A>(matches)?;
    let Ok(mut config) = Config::new(replicas, faults, kind) else {
        return Err(UsageFault::TooFew { replicas, faults });
    };
    let width = width(matches)?;
    let height = tree_height(matches)?;
    let frames = frames(matches)?;
    config.frames = frames;
    let seed = seed(matches, taken, given)?;
    Ok(ClusterSeed {
        config,
        params: Params { width, height },
        seed,
    })
}
