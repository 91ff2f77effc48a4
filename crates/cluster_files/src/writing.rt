//! Writes the file of a cluster.
ghost use Rattle.std.specs.Prelude.{◌≡◌, string_bytes, All, IfOk, OnOk, Some};
ghost use Rattle.ledger_model.specs.Numbers.{version_number};
ghost use Rattle.hex.specs.Hex.{IsBytes, encode_lower};
ghost use Rattle.toml.specs.Data.{array, string};
ghost use Rattle.toml.specs.Parse.{parse_document};
ghost use Rattle.toml.specs.View.{table_view, view};
ghost use Rattle.cluster_files.specs.KeyBytes.{Is56Bytes};
ghost use Rattle.cluster_files.specs.FileTexts.{cluster_text};
ghost use Rattle.cluster_files.specs.FileTables.{cluster_table, keys_data, kind_word, with_member};
ghost use Rattle.cluster_files.specs.Descriptions.{Describes};

use cluster_setup::PublicCluster;
use ledger_model::{AppKind, ReplicaId, Version};
use lms_tree::PublicKey;
use std::alloc::{AllocError, Global};
use toml::ser::Error;
use toml::value::Array;
use toml::{Table, Value};

/// The word for an application.
fn kind_word(kind: AppKind) -> &'static str
    ensures { result.now ≡ kind_word kind }
{
    match kind {
        AppKind::Own => "own",
        AppKind::KvStore => "kvstore",
        AppKind::Counter => "counter",
        AppKind::Purse => "purse",
    }
}

/// The number of a version.
fn version_number(version: Version) -> u8
    ensures { result ≡ version_number version }
{
    match version {
        Version::One => 1,
        Version::Two => 2,
    }
}

/// The hexadecimal digits of bytes as a value, in lower case.
fn digits(alloc: Global, bytes: &[u8]) -> Result<Value, AllocError>
    ensures value { IfOk result (λ value. view value ≡ string (encode_lower bytes.now)) }
    ensures bytes { IsBytes bytes.now }
{
    Ok(Value::from(hex::encode(alloc, bytes)?))
}

/// A public key as a value.
fn key(alloc: Global, key: &PublicKey) -> Result<Value, AllocError>
    ensures value { IfOk result (λ value. view value ≡ string (encode_lower key.now)) }
    ensures bytes { Is56Bytes key.now }
{
    digits(alloc, key.as_bytes().as_slice())
}

/// The public keys of a cluster as a value.
fn keys(alloc: Global, cluster: &PublicCluster) -> Result<Value, AllocError>
    ensures value { IfOk result (λ value. view value ≡ array (keys_data cluster.now.ring)) }
    ensures bytes { OnOk result (All Is56Bytes cluster.now.ring) }
{
    let mut keys = Array::with_capacity(alloc, usize::from(cluster.config.replicas))?;
    for replica in 0..cluster.config.replicas {
        let Some(public) = cluster.ring.key(ReplicaId::new(replica)) else {
            unreachable!()
        };
        keys.push(key(alloc, public)?)?;
    }
    Ok(Value::from(keys))
}

/// Puts a value under a name.
fn put(alloc: Global, table: &mut Table, name: &str, value: Value) -> Result<(), AllocError>
    ensures { OnOk result (table_view table.new ≡ with_member name.now (view value) (table_view table.old)) }
{
    let name = String::from_str(alloc, name)?;
    table.insert(name, value)?;
    Ok(())
}

/// The table of a cluster.
fn table(alloc: Global, cluster: &PublicCluster) -> Result<Table, AllocError>
    ensures value { IfOk result (λ table. table_view table ≡ cluster_table cluster.now) }
    ensures bytes { OnOk result (All Is56Bytes cluster.now.ring) }
{
    let config = cluster.config;
    let params = cluster.params;
    let kind = Value::string(alloc, kind_word(config.kind))?;
    let frames = Value::from(version_number(config.frames));
    let keys = keys(alloc, cluster)?;
    let mut table = Table::new(alloc);
    put(alloc, &mut table, "bits", Value::from(params.width.bits()))?;
    put(alloc, &mut table, "faults", Value::from(config.faults))?;
    put(alloc, &mut table, "frames", frames)?;
    put(alloc, &mut table, "keys", keys)?;
    put(alloc, &mut table, "kind", kind)?;
    put(
        alloc,
        &mut table,
        "levels",
        Value::from(params.height.levels()),
    )?;
    put(alloc, &mut table, "replicas", Value::from(config.replicas))?;
    Ok(table)
}

/// The file of a cluster (`docs/FORMATS.md`, "A cluster's file"): a line for each name, in the alphabetical order of the names, and a line
/// for each key. The only error is allocation failure.
pub fn text_of(alloc: Global, cluster: &PublicCluster) -> Result<String, AllocError>
    ensures text { IfOk result (λ text. string_bytes text ≡ cluster_text cluster.now) }
    ensures table { IfOk result (λ text. parse_document (string_bytes text) ≡ Some (cluster_table cluster.now)) }
    ensures described { IfOk result (λ text. Describes (string_bytes text) cluster.now) }
{
    let table = table(alloc, cluster)?;
    match toml::table_to_string_pretty(alloc, &table) {
        Ok(text) => Ok(text),
        Err(Error::OutOfMemory) => Err(AllocError),
        Err(Error::DateInvalid) => unreachable!(),
    }
}
