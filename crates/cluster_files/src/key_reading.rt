//! Reads the public keys of a table.
ghost use Rattle.std.specs.Prelude.{◌≡◌, ◌↔◌, codes, length, map, All, IfOk, IfErr, IsTrue, Some};
ghost use Rattle.toml.specs.Data.{Items, array};
ghost use Rattle.toml.specs.View.{array_view, table_view, view};
ghost use Rattle.cluster_files.specs.FileTables.{spelled_key, spelled_keys};
ghost use Rattle.cluster_setup.specs.KeySizes.{HasSizes};
ghost use Rattle.cluster_files.specs.Descriptions.{HasNumber, HasParams, HasValue};
ghost use Rattle.cluster_files.specs.FileFaults.{IsRightOfItem, IsRightOfTable};

use crate::fault::ClusterFileFault;
use crate::table_reading::value;
use hex::FromHex;
use key_ring::KeyRing;
use ledger_model::ReplicaId;
use lm_ots::Params;
use lms_tree::PublicKey;
use std::alloc::Global;
use toml::value::Array;
use toml::{Table, Value};

/// The array of the table's keys, with one value for each replica.
fn items(table: &Table, replicas: u8) -> Result<&Array, ClusterFileFault>
    requires { HasNumber (table_view table.now) (codes "replicas") replicas }
    ensures some { IfOk result (λ items. HasValue (table_view table.now) (codes "keys") (array (array_view items.now))) }
    ensures count { IfOk result (λ items. length items.now.items ≡ replicas) }
    ensures right { IfErr result (IsRightOfTable (table_view table.now)) }
{
    let Some(items) = value(table, "keys")?.as_array() else {
        return Err(ClusterFileFault::NoArray);
    };
    let keys = items.len();
    if keys != usize::from(replicas) {
        return Err(ClusterFileFault::KeyCount { keys, replicas });
    }
    Ok(items)
}

/// Whether the key is of this parameter set.
fn has_sizes(key: &PublicKey, params: Params) -> bool
    ensures { IsTrue result ↔ HasSizes params key.now }
{
    key.params() == params
}

/// The key of a replica, which a value of `keys` spells.
fn key(item: &Value, replica: ReplicaId, params: Params) -> Result<PublicKey, ClusterFileFault>
    ensures some { IfOk result (λ key. spelled_key (view item.now) ≡ Some key) }
    ensures sized { IfOk result (HasSizes params) }
    ensures right { IfErr result (IsRightOfItem params replica (view item.now)) }
{
    let Some(digits) = item.as_str() else {
        return Err(ClusterFileFault::NoKey(replica));
    };
    let Ok(bytes) = <[u8; 56] as FromHex>::from_hex(digits) else {
        return Err(ClusterFileFault::NoKey(replica));
    };
    match PublicKey::from_bytes(&bytes) {
        Ok(key) if has_sizes(&key, params) => Ok(key),
        _ => Err(ClusterFileFault::OtherSizes(replica)),
    }
}

/// The keys of all replicas, by number.
pub(crate) fn ring(
    alloc: Global,
    table: &Table,
    replicas: u8,
    params: Params,
) -> Result<KeyRing, ClusterFileFault>
    requires counted { HasNumber (table_view table.now) (codes "replicas") replicas }
    requires sized { HasParams (table_view table.now) params }
    ensures keys { IfOk result (λ ring. (items : Items) × (HasValue (table_view table.now) (codes "keys") (array items)
        × (spelled_keys items ≡ map Some ring))) }
    ensures count { IfOk result (λ ring. length ring ≡ replicas) }
    ensures sizes { IfOk result (All (HasSizes params)) }
    ensures right { IfErr result (IsRightOfTable (table_view table.now)) }
{
    let items = items(table, replicas)?;
    let mut keys = Vec::with_capacity(alloc, items.len())?;
    for replica in 0..replicas {
        let key = key(
            &items[usize::from(replica)],
            ReplicaId::new(replica),
            params,
        )?;
        keys.push(key)?;
    }
    Ok(KeyRing::new(keys))
}
