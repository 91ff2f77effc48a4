//! The settings that the words of a command line give.
ghost use Rattle.std.specs.Prelude.{◌≡◌, ℕ, List, Option, [], map, true, IfOk, IfErr, OnErr};
ghost use Rattle.clap.specs.Words.{found_of, rows_of, subcommand_of, subcommand_rows_of, takes};
ghost use Rattle.ledger_model.specs.declared.config.AppKinds.{AppKinds};
ghost use Rattle.ledger_model.specs.Meanings.{Meanings};
ghost use Rattle.command_line.specs.Faults.{IsRightFault, IsRightIn, IsRightOf, IsUnfit, kinds_of};
ghost use Rattle.command_line.specs.Grammar.{abft_app};
ghost use Rattle.command_line.specs.Options.{HasRunning, IsSet, OptionTable, Sets, SetsAudit, SetsDeliver, SetsKeys, SetsRunning, SetsServe, SetsSign, SetsSimulate, WantsMemory, SetsDraw, audit_options, deliver_options, draw_options, keys_options, serve_options, sign_options, simulate_options};
ghost use Rattle.cluster_setup.specs.declared.cluster_seed.ClusterSeed.{ClusterSeed};
ghost use Rattle.cluster_setup.specs.declared.sign_settings.SignSettings.{SignSettings};
ghost use Rattle.cluster_setup.specs.declared.deliver_settings.DeliverSettings.{DeliverSettings};
ghost use Rattle.cluster_setup.specs.declared.simulate_settings.SimulateSettings.{SimulateSettings};
ghost use Rattle.cluster_setup.specs.declared.cluster_settings.ClusterSettings.{ClusterSettings};
ghost use Rattle.cluster_setup.specs.declared.cluster_settings.ServeSettings.{ServeSettings};
ghost use Rattle.cluster_setup.specs.declared.audit_settings.AuditSettings.{AuditSettings};
ghost use Rattle.cluster_setup.specs.declared.draw_settings.DrawSettings.{DrawSettings};
ghost use Rattle.cluster_setup.specs.declared.settings.Settings.{Settings};

use crate::given_keys::GivenKeys;
use crate::grammar::abft_command;
use crate::key_sources::asks_for_random;
use crate::known_clusters::known_cluster;
use crate::options::{
    accepted_transaction, cluster, file, is_named, log_filter, number, optional_port,
    optional_text, small_number, transaction, what,
};
use crate::receipts::receipt;
use crate::refused_words::fault_of;
use crate::seed_words::SeedWords;
use crate::seeds::seed;
use crate::usage_fault::UsageFault;
use app_states::Opening;
use clap::ArgMatches;
use cluster_setup::{
    AuditSettings, ClusterSeed, ClusterSettings, DeliverSettings, DrawSettings, ServeSettings,
    Settings, SignSettings, SimulateSettings,
};
use ledger_model::{Height, Phase, ReplicaId};
use std::alloc::Global;

/// The settings of `abft sign`, from its matches.
fn sign_settings<'a, A: Opening>(
    alloc: Global,
    matches: &ArgMatches<'a>,
    given: Option<[u8; 32]>,
) -> Result<SignSettings, UsageFault<'a>>
    ensures some { IfOk result (λ s. SetsSign A.words.kinds given (rows_of (found_of matches.now)) s) }
    ensures none { IfErr result (λ e. (s : SignSettings) → SetsSign A.words.kinds given (rows_of (found_of matches.now)) s → WantsMemory e) }
    ensures right { (meaning : Meanings) → IfErr result (IsRightOf A.words.kinds meaning given sign_options (rows_of (found_of matches.now))) }
{
    let cluster = cluster::<A>(matches, SeedWords::Digits, given)?;
    let what = what(matches)?;
    let replica = small_number(matches, "replica", 0, cluster.config.replicas - 1)?;
    let height = number(matches, "height", 1, 4096)?;
    let phase = number(matches, "phase", 1, 1_000_000_000)?;
    let value = transaction(alloc, matches, "value")?;
    Ok(SignSettings {
        cluster,
        what,
        replica: ReplicaId::new(replica),
        height: Height::new(height),
        phase: Phase::new(phase),
        value,
    })
}

/// The settings of `abft deliver`, from its matches.
fn deliver_settings<'a, A: Opening>(
    alloc: Global,
    matches: &ArgMatches<'a>,
    given: Option<[u8; 32]>,
) -> Result<DeliverSettings, UsageFault<'a>>
    ensures some { IfOk result (λ s. SetsDeliver A.words.kinds A.meaning given (rows_of (found_of matches.now)) s) }
    ensures none { IfErr result (λ e. (s : DeliverSettings) → SetsDeliver A.words.kinds A.meaning given (rows_of (found_of matches.now)) s → WantsMemory e) }
    ensures right { IfErr result (IsRightOf A.words.kinds A.meaning given deliver_options (rows_of (found_of matches.now))) }
{
    let cluster = cluster::<A>(matches, SeedWords::Digits, given)?;
    let replica = small_number(matches, "replica", 0, cluster.config.replicas - 1)?;
    let value = accepted_transaction::<A>(alloc, matches, "value", cluster.config.kind)?;
    let height = number(matches, "height", 1, 4)?;
    let rounds = number(matches, "rounds", 0, 4_000_000_000)?;
    Ok(DeliverSettings {
        cluster,
        replica: ReplicaId::new(replica),
        value,
        height: Height::new(height),
        rounds,
    })
}

/// The settings of `abft simulate`, from its matches.
fn simulate_settings<'a>(
    matches: &ArgMatches<'a>,
    given: Option<[u8; 32]>,
) -> Result<SimulateSettings, UsageFault<'a>>
    ensures some { IfOk result (λ s. SetsSimulate given (rows_of (found_of matches.now)) s) }
    ensures none { OnErr result ((s : SimulateSettings) → SetsSimulate given (rows_of (found_of matches.now)) s → ⊥) }
    ensures right { (kinds : AppKinds) (meaning : Meanings) → IfErr result (IsRightOf kinds meaning given simulate_options (rows_of (found_of matches.now))) }
{
    let seed = seed(matches, SeedWords::Digits, given)?;
    Ok(SimulateSettings {
        seed,
        histories: is_named(matches, "histories"),
    })
}

/// The settings of `abft cluster`, from its matches.
fn cluster_settings<'a, A: Opening>(
    alloc: Global,
    matches: &ArgMatches<'a>,
    given: Option<[u8; 32]>,
) -> Result<ClusterSettings, UsageFault<'a>>
    ensures some { IfOk result (λ s. SetsRunning A.words.kinds A.meaning given (rows_of (found_of matches.now)) s) }
    ensures none { IfErr result (λ e. (s : ClusterSettings) → SetsRunning A.words.kinds A.meaning given (rows_of (found_of matches.now)) s → WantsMemory e) }
    ensures right { (table : OptionTable) → HasRunning A.words.kinds table → IfErr result (IsRightOf A.words.kinds A.meaning given table (rows_of (found_of matches.now))) }
{
    let cluster = cluster::<A>(matches, SeedWords::DigitsOrRandom, given)?;
    let tx = accepted_transaction::<A>(alloc, matches, "tx", cluster.config.kind)?;
    let rounds = number(matches, "rounds", 0, 4_000_000_000)?;
    let base_ms = number(matches, "base-ms", 1, 60_000)?;
    let log = log_filter(matches)?;
    let histories = file(alloc, matches, "histories")?;
    let is_sparing = is_named(matches, "no-empty-blocks");
    let is_steady = is_named(matches, "steady");
    Ok(ClusterSettings {
        cluster,
        tx,
        rounds,
        base_ms,
        is_steady,
        creates_empty_blocks: !is_sparing,
        log,
        stops_at_eof: is_named(matches, "stop-at-eof"),
        histories,
    })
}

/// The settings of `abft serve`, from its matches.
fn serve_settings<'a, A: Opening>(
    alloc: Global,
    matches: &ArgMatches<'a>,
    given: Option<[u8; 32]>,
) -> Result<ServeSettings, UsageFault<'a>>
    ensures some { IfOk result (λ s. SetsServe A.words.kinds A.meaning given (rows_of (found_of matches.now)) s) }
    ensures none { IfErr result (λ e. (s : ServeSettings) → SetsServe A.words.kinds A.meaning given (rows_of (found_of matches.now)) s → WantsMemory e) }
    ensures right { IfErr result (IsRightOf A.words.kinds A.meaning given serve_options (rows_of (found_of matches.now))) }
{
    let cluster = cluster_settings::<A>(alloc, matches, given)?;
    let port = number(matches, "port", 0, 65_535)?;
    let http = optional_port(matches, "http")?;
    let sessions = number(matches, "sessions", 1, 1000)?;
    let client_entries = number(matches, "client-entries", 0, 65_536)?;
    Ok(ServeSettings {
        cluster,
        port: port as u16,
        http,
        sessions,
        client_entries,
    })
}

/// The settings of `abft audit`, from its matches.
fn audit_settings<'a, A: Opening>(
    alloc: Global,
    matches: &ArgMatches<'a>,
    given: GivenKeys,
) -> Result<AuditSettings, UsageFault<'a>>
    ensures some { IfOk result (λ s. SetsAudit A.words.kinds given (rows_of (found_of matches.now)) s) }
    ensures none { IfErr result (λ e. (s : AuditSettings) → SetsAudit A.words.kinds given (rows_of (found_of matches.now)) s → WantsMemory e) }
    ensures right { (meaning : Meanings) → IfErr result (IsRightOf A.words.kinds meaning given.seed audit_options (rows_of (found_of matches.now))) }
    ensures unfit { IfErr result (IsUnfit A.words.kinds given.cluster) }
{
    let cluster = known_cluster::<A>(matches, given)?;
    let receipt = receipt(alloc, matches)?;
    Ok(AuditSettings { cluster, receipt })
}

/// The settings of `abft draw`, from its matches.
fn draw_settings<'a, A: Opening>(
    matches: &ArgMatches<'a>,
    given: GivenKeys,
) -> Result<DrawSettings, UsageFault<'a>>
    ensures some { IfOk result (λ s. SetsDraw A.words.kinds given (rows_of (found_of matches.now)) s) }
    ensures none { IfErr result (λ e. (s : DrawSettings) → SetsDraw A.words.kinds given (rows_of (found_of matches.now)) s → WantsMemory e) }
    ensures right { (meaning : Meanings) → IfErr result (IsRightOf A.words.kinds meaning given.seed draw_options (rows_of (found_of matches.now))) }
    ensures unfit { IfErr result (IsUnfit A.words.kinds given.cluster) }
{
    let cluster = known_cluster::<A>(matches, given)?;
    let height = number(matches, "height", 0, 4096)?;
    let first = number(matches, "first", 0, 4_000_000_000)?;
    let last = number(matches, "last", 0, 4_000_000_000)?;
    Ok(DrawSettings {
        cluster,
        height,
        first,
        last,
    })
}

/// The cluster of `abft keys`, from its matches.
fn keys_settings<'a, A: Opening>(
    matches: &ArgMatches<'a>,
    given: Option<[u8; 32]>,
) -> Result<ClusterSeed, UsageFault<'a>>
    ensures some { IfOk result (λ c. SetsKeys A.words.kinds given (rows_of (found_of matches.now)) c) }
    ensures none { OnErr result ((c : ClusterSeed) → SetsKeys A.words.kinds given (rows_of (found_of matches.now)) c → ⊥) }
    ensures right { (meaning : Meanings) → IfErr result (IsRightOf A.words.kinds meaning given keys_options (rows_of (found_of matches.now))) }
{
    let is_random = asks_for_random(matches, SeedWords::DigitsOrRandom);
    if is_random != optional_text(matches, "write-seed").is_some() {
        return Err(UsageFault::UnwrittenSeed);
    }
    cluster::<A>(matches, SeedWords::DigitsOrRandom, given)
}

/// The matches of the words, of which the first is the program's name.
pub(crate) fn matches_of<'a, A: Opening>(
    alloc: Global,
    words: &'a [&'a str],
) -> Result<ArgMatches<'a>, UsageFault<'a>>
    ensures found { IfOk result (λ m. subcommand_rows_of m ≡ subcommand_of (abft_app A.words) (map (λ w. w.now) words.entry.now)) }
    ensures refused { IfErr result (λ e. takes (abft_app A.words) (map (λ w. w.now) words.entry.now) ≡ true → WantsMemory e) }
    ensures kinds { IfErr result (λ e. kinds_of A.words (map (λ w. w.now) words.entry.now) ≡ [] → WantsMemory e) }
    ensures taken { IfOk result (λ _. kinds_of A.words (map (λ w. w.now) words.entry.now) ≡ []) }
    ensures right { (meaning : Meanings) (given : Option (List ℕ)) → IfErr result (IsRightFault A.words meaning given (map (λ w. w.now) words.entry.now)) }
{
    let command = abft_command::<A>(alloc)?;
    match command.try_get_matches_from(words) {
        Ok(matches) => Ok(matches),
        Err(error) => Err(fault_of(error, A::name(), words)),
    }
}

/// The settings of the subcommand in the matches.
pub(crate) fn settings_of<'a, A: Opening>(
    alloc: Global,
    matches: &ArgMatches<'a>,
    given: GivenKeys,
) -> Result<Settings, UsageFault<'a>>
    ensures set { IfOk result (λ s. Sets A.words.kinds A.meaning given (subcommand_rows_of matches.now) s) }
    ensures refused { IfErr result (λ e. (s : Settings) → Sets A.words.kinds A.meaning given (subcommand_rows_of matches.now) s → WantsMemory e) }
    ensures right { IfErr result (IsRightIn A.words.kinds A.meaning given.seed (subcommand_rows_of matches.now)) }
    ensures unfit { IfErr result (IsUnfit A.words.kinds given.cluster) }
{
    let Some((name, options)) = matches.subcommand() else {
        return Err(UsageFault::NoSubcommand);
    };
    match name {
        "sign" => sign_settings::<A>(alloc, options, given.seed).map(Settings::Sign),
        "deliver" => deliver_settings::<A>(alloc, options, given.seed).map(Settings::Deliver),
        "simulate" => simulate_settings(options, given.seed).map(Settings::Simulate),
        "cluster" => cluster_settings::<A>(alloc, options, given.seed).map(Settings::Cluster),
        "serve" => serve_settings::<A>(alloc, options, given.seed).map(Settings::Serve),
        "audit" => audit_settings::<A>(alloc, options, given).map(Settings::Audit),
        "draw" => draw_settings::<A>(options, given).map(Settings::Draw),
        "keys" => keys_settings::<A>(options, given.seed).map(Settings::Keys),
        _ => Err(UsageFault::NoSubcommand),
    }
}

/// The settings that the words of a command line give. The first word is the program's name.
///
/// Each option has the value that the words give it, or else its default, and is within its limits. An `Err` contains
/// what is wrong, or the help that the words ask for. The caller gives the seed or the cluster that the words name a file for, or the seed that
/// was drawn, as [`key_source`](crate::key_source) says: without it such words have a fault. Other words don't use what is given.
pub fn settings<'a, A: Opening>(
    alloc: Global,
    words: &'a [&'a str],
    given: GivenKeys,
) -> Result<Settings, UsageFault<'a>>
    ensures set { IfOk result (λ s. IsSet A.words A.meaning given (map (λ w. w.now) words.entry.now) s) }
    // The words have no fault, and ask for neither the help nor the version.
    ensures taken { IfOk result (λ _. kinds_of A.words (map (λ w. w.now) words.entry.now) ≡ []) }
    // Words that set something are refused only if memory runs out.
    ensures refused { IfErr result (λ e. takes (abft_app A.words) (map (λ w. w.now) words.entry.now) ≡ true
        → (s : Settings) → IsSet A.words A.meaning given (map (λ w. w.now) words.entry.now) s → WantsMemory e) }
    // What the fault says about the words is true, and what it says about the cluster that was given.
    ensures right { IfErr result (IsRightFault A.words A.meaning given.seed (map (λ w. w.now) words.entry.now)) }
    ensures unfit { IfErr result (IsUnfit A.words.kinds given.cluster) }
{
    let matches = matches_of::<A>(alloc, words)?;
    settings_of::<A>(alloc, &matches, given)
}
