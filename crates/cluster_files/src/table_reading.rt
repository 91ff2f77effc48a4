//! Reads from a table what it says of a cluster's configuration and of the sizes of its keys.
ghost use Rattle.std.specs.Prelude.{◌≡◌, ◌≤◌, codes, string_bytes, Contains, IfOk, IfErr, MatchOption, Some, false, true, if◌then◌else◌};
ghost use Rattle.std.specs.List.{AllPass};
ghost use Rattle.toml.specs.Data.{get_member, string};
ghost use Rattle.toml.specs.View.{table_view, view};
ghost use Rattle.ledger_model.specs.Numbers.{version_number};
ghost use Rattle.lm_ots.specs.Parameters.{bits_of, levels_of};
ghost use Rattle.cluster_files.specs.FileTables.{is_file_name, kind_word, names_in};
ghost use Rattle.cluster_files.specs.Descriptions.{HasNumber, HasParams, HasValue};
ghost use Rattle.cluster_files.specs.FileFaults.{IsRightOfTable, TakesEitherOf, TakesRange};

use crate::fault::ClusterFileFault;
use ledger_model::{AppKind, Config, Version};
use lm_ots::{Params, TreeHeight, Width};
use toml::{Table, Value};

/// Whether a cluster's file has this name.
fn is_name(name: &str) -> bool
    ensures { result ≡ is_file_name name.now }
{
    matches!(
        name,
        "bits" | "faults" | "frames" | "keys" | "kind" | "levels" | "replicas"
    )
}

/// The first name of the table that no cluster's file has.
pub(crate) fn unknown_name(table: &Table) -> Option<&str>
    ensures { MatchOption result (AllPass is_file_name (names_in (table_view table.now)))
        (λ name. Contains (names_in (table_view table.now)) name.now × (is_file_name name.now ≡ false)) }
{
    for name in table.keys() {
        if !is_name(name.as_str()) {
            return Some(name.as_str());
        }
    }
    None
}

/// The value that the table has under a name.
pub(crate) fn value<'a>(table: &'a Table, name: &'static str) -> Result<&'a Value, ClusterFileFault>
    requires { is_file_name name.now ≡ true }
    ensures some { IfOk result (λ value. HasValue (table_view table.now) name.now (view value.now)) }
    ensures right { IfErr result (IsRightOfTable (table_view table.now)) }
{
    match table.get(name) {
        Some(value) => Ok(value),
        None => Err(ClusterFileFault::Missing(name)),
    }
}

/// The number that the table has under a name, within the name's limits.
fn number(table: &Table, name: &'static str, least: u8, most: u8) -> Result<u8, ClusterFileFault>
    requires { TakesRange name.now least most }
    ensures some { IfOk result (λ n. HasNumber (table_view table.now) name.now n) }
    ensures least { IfOk result (λ n. least ≤ n) }
    ensures most { IfOk result (λ n. n ≤ most) }
    ensures right { IfErr result (IsRightOfTable (table_view table.now)) }
{
    match value(table, name)?.as_integer() {
        Some(number) if i64::from(least) <= number && number <= i64::from(most) => Ok(number as u8),
        _ => Err(ClusterFileFault::Number { name, least, most }),
    }
}

/// Whether the table has the second of the two numbers that a name takes, and not the first.
fn is_other(table: &Table, name: &'static str, one: u8, other: u8) -> Result<bool, ClusterFileFault>
    requires { TakesEitherOf name.now one other }
    ensures some { IfOk result (λ is_other. HasNumber (table_view table.now) name.now (if is_other then other else one)) }
    ensures right { IfErr result (IsRightOfTable (table_view table.now)) }
{
    match value(table, name)?.as_integer() {
        Some(number) if number == i64::from(one) => Ok(false),
        Some(number) if number == i64::from(other) => Ok(true),
        _ => Err(ClusterFileFault::Neither { name, one, other }),
    }
}

/// The application that the table names.
fn kind(table: &Table) -> Result<AppKind, ClusterFileFault>
    ensures some { IfOk result (λ kind. HasValue (table_view table.now) (codes "kind") (string (kind_word kind))) }
    ensures right { IfErr result (IsRightOfTable (table_view table.now)) }
{
    let Some(word) = value(table, "kind")?.as_str() else {
        return Err(ClusterFileFault::Kind);
    };
    match word {
        "kvstore" => Ok(AppKind::KvStore),
        "counter" => Ok(AppKind::Counter),
        "purse" => Ok(AppKind::Purse),
        "own" => Ok(AppKind::Own),
        _ => Err(ClusterFileFault::Kind),
    }
}

/// The version of the frames.
fn frames(table: &Table) -> Result<Version, ClusterFileFault>
    ensures some { IfOk result (λ version. HasNumber (table_view table.now) (codes "frames") (version_number version)) }
    ensures right { IfErr result (IsRightOfTable (table_view table.now)) }
{
    if is_other(table, "frames", 1, 2)? {
        Ok(Version::Two)
    } else {
        Ok(Version::One)
    }
}

/// The configuration that the table has.
pub(crate) fn config(table: &Table) -> Result<Config, ClusterFileFault>
    ensures replicas { IfOk result (λ config. HasNumber (table_view table.now) (codes "replicas") config.replicas) }
    ensures faults { IfOk result (λ config. HasNumber (table_view table.now) (codes "faults") config.faults) }
    ensures kind { IfOk result (λ config. HasValue (table_view table.now) (codes "kind") (string (kind_word config.kind))) }
    ensures frames { IfOk result (λ config. HasNumber (table_view table.now) (codes "frames") (version_number config.frames)) }
    ensures right { IfErr result (IsRightOfTable (table_view table.now)) }
{
    let replicas = number(table, "replicas", 4, Config::MAX_REPLICAS)?;
    let faults = number(table, "faults", 1, 4)?;
    let kind = kind(table)?;
    let frames = frames(table)?;
    let Ok(mut config) = Config::new(replicas, faults, kind) else {
        return Err(ClusterFileFault::TooFew { replicas, faults });
    };
    config.frames = frames;
    Ok(config)
}

/// The parameter set that the table has.
pub(crate) fn params(table: &Table) -> Result<Params, ClusterFileFault>
    ensures some { IfOk result (HasParams (table_view table.now)) }
    ensures right { IfErr result (IsRightOfTable (table_view table.now)) }
{
    let width = if is_other(table, "bits", 4, 8)? {
        Width::W8
    } else {
        Width::W4
    };
    let height = if is_other(table, "levels", 5, 10)? {
        TreeHeight::H10
    } else {
        TreeHeight::H5
    };
    Ok(Params { width, height })
}
