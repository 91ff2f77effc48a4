//! Clusters, numbers, transactions, keys, batches and their order.

use ledger_model::{
    AppKind, Batch, BatchFault, Config, ConfigFault, Height, Key, KeyFault, Phase, ReplicaId, Tx,
    TxFault, are_ascending,
};
use std::alloc::Global;
use std::cmp::Ordering;
use test_support::{batch, tx, value, values};

// Whether a cluster has these numbers and its kind, or why there is none.
fn config_shows(replicas: u8, faults: u8) -> Result<bool, ConfigFault> {
    let config = Config::new(replicas, faults, AppKind::Purse)?;
    Ok((config.replicas, config.faults, config.kind) == (replicas, faults, AppKind::Purse))
}

#[test]
fn sizes_of_clusters(rt: HostRuntime) {
    for (replicas, faults, wanted) in [
        (3, 1, Err(ConfigFault::TooFew)),
        (12, 4, Err(ConfigFault::TooFew)),
        (4, 1, Ok(true)),
        (13, 4, Ok(true)),
        (14, 4, Err(ConfigFault::TooMany)),
        (5, 0, Err(ConfigFault::NoFault)),
        (0, 0, Err(ConfigFault::TooFew)),
        (255, 255, Err(ConfigFault::TooFew)),
    ] {
        assert!(rt;
            config_shows(replicas, faults) == wanted,
            "{replicas} replicas"
        );
    }
}

#[test]
fn numbers(rt: HostRuntime) {
    let height = Height::new(4096).number();
    let phase = Phase::new(7).number();
    assert!(rt; (height, phase, ReplicaId::new(12).number()) == (4096, 7, 12));
    assert!(rt; Height::new(9) < Height::new(10));
}

// Whether a transaction returns these bytes, or why there is none.
fn tx_shows(alloc: Global, bytes: &[u8]) -> Option<Result<bool, TxFault>> {
    match Tx::new(Vec::from_slice(alloc, bytes).ok()?) {
        Ok(tx) => Some(Ok(tx.as_bytes() == bytes)),
        Err(fault) => Some(Err(fault)),
    }
}

fn key_shows(alloc: Global, bytes: &[u8]) -> Option<Result<bool, KeyFault>> {
    match Key::new(Vec::from_slice(alloc, bytes).ok()?) {
        Ok(key) => Some(Ok(key.as_bytes() == bytes)),
        Err(fault) => Some(Err(fault)),
    }
}

#[test]
fn lengths_of_transactions_and_keys(rt: HostRuntime) {
    let long = [7; 65];
    for (len, of_tx, of_key) in [
        (0, Err(TxFault::Empty), Ok(true)),
        (1, Ok(true), Ok(true)),
        (64, Ok(true), Ok(true)),
        (65, Err(TxFault::TooLong), Err(KeyFault::TooLong)),
    ] {
        let bytes = &long[..len];
        let are_shown = tx_shows(rt.alloc(), bytes) == Some(of_tx)
            && key_shows(rt.alloc(), bytes) == Some(of_key);
        assert!(rt; are_shown, "{len} bytes");
    }
}

// The order of two transactions, whether the first is below the second, and whether they are equal.
fn order_of(alloc: Global, first: &[u8], second: &[u8]) -> Option<(Ordering, bool, bool)> {
    let first = tx(alloc, first).ok()?;
    let second = tx(alloc, second).ok()?;
    Some((first.cmp(&second), first < second, first == second))
}

// Shorter ones come first.
#[test]
fn order_of_transactions(rt: HostRuntime) {
    for (first, second, wanted) in [
        (
            b"z".as_slice(),
            b"aa".as_slice(),
            (Ordering::Less, true, false),
        ),
        (b"ab", b"aa", (Ordering::Greater, false, false)),
        (b"ab", b"ab", (Ordering::Equal, false, true)),
    ] {
        assert!(rt;
            order_of(rt.alloc(), first, second) == Some(wanted),
            "{first:?} {second:?}"
        );
    }
}

fn put_transactions(alloc: Global, made: &mut Vec<Tx>, count: usize) -> Option<()> {
    for _ in 0..count {
        made.push(tx(alloc, b"x").ok()?).ok()?;
    }
    Some(())
}

// The number of transactions of a batch made from `count`, or why there is none.
fn sizes(alloc: Global, count: usize) -> Option<Result<usize, BatchFault>> {
    let mut transactions = Vec::new(alloc);
    put_transactions(alloc, &mut transactions, count)?;
    match Batch::new(transactions) {
        Ok(batch) => Some(Ok(batch.transactions().len())),
        Err(fault) => Some(Err(fault)),
    }
}

#[test]
fn sizes_of_batches(rt: HostRuntime) {
    for (count, wanted) in [(0, Ok(0)), (64, Ok(64)), (65, Err(BatchFault::TooMany))] {
        assert!(rt; sizes(rt.alloc(), count) == Some(wanted), "{count}");
    }
}

fn is_same(alloc: Global, value: &Batch, transactions: &[&[u8]]) -> Option<bool> {
    let other = batch(alloc, transactions).ok()?;
    Some(*value == other)
}

// Whether these are transactions of these bytes.
fn are_spelled(transactions: &[Tx], wanted: &[&[u8]]) -> bool {
    for (tx, bytes) in transactions.iter().zip(wanted) {
        if tx.as_bytes() != *bytes {
            return false;
        }
    }
    transactions.len() == wanted.len()
}

#[test]
fn a_batch_shows_its_transactions(rt: HostRuntime) {
    let made = batch(rt.alloc(), &[b"a=1", b"b=2"]).expect(&rt, "a batch");
    assert!(rt; are_spelled(made.transactions(), &[b"a=1", b"b=2"]));
    assert!(rt; is_same(rt.alloc(), &made, &[b"a=1", b"b=2"]) == Some(true));
    assert!(rt; is_same(rt.alloc(), &made, &[b"b=2", b"a=1"]) == Some(false));
}

// `[]`, `[z]`, `[aa]`, `[a,a]`: their encodings start with 00, 01 01, 01 02 and 02.
const IN_ORDER: [&[&[u8]]; 4] = [&[], &[b"z"], &[b"aa"], &[b"a", b"a"]];

fn in_order(alloc: Global) -> Option<Vec<Batch>> {
    let mut made = Vec::new(alloc);
    put_each(alloc, &mut made)?;
    Some(made)
}

fn put_each(alloc: Global, made: &mut Vec<Batch>) -> Option<()> {
    for transactions in IN_ORDER {
        made.push(batch(alloc, transactions).ok()?).ok()?;
    }
    Some(())
}

// The first two of these batches, compared, that are not in the order of their indices.
fn first_misplaced(values: &[Batch]) -> Option<(usize, usize)> {
    for (i, value) in values.iter().enumerate() {
        for (j, other) in values.iter().enumerate() {
            if value.cmp(other) != i.cmp(&j) || (value < other) != (i < j) {
                return Some((i, j));
            }
        }
    }
    None
}

#[test]
fn order_of_batches(rt: HostRuntime) {
    let mut made = in_order(rt.alloc()).expect(&rt, "batches");
    assert!(rt; made.len() == 4 && first_misplaced(&made).is_none());
    assert!(rt; are_ascending(&[]) && are_ascending(&made));
    made.reverse();
    assert!(rt; !are_ascending(&made));
    let twice = values(rt.alloc(), &[b"a=1", b"a=1"]).expect(&rt, "batches");
    assert!(rt; !are_ascending(&twice));
}

fn key_is_copied(alloc: Global) -> Option<bool> {
    let key = Key::new(Vec::from_slice(alloc, b"count").ok()?).ok()?;
    Some(key.copy().ok()?.as_bytes() == b"count".as_slice())
}

fn tx_is_copied(alloc: Global) -> Option<bool> {
    let copied = tx(alloc, b"a=1").ok()?.copy().ok()?;
    Some(copied.as_bytes() == b"a=1".as_slice())
}

fn batch_is_copied(alloc: Global) -> Option<bool> {
    let copied = batch(alloc, &[b"a=1", b"b=2"]).ok()?.copy().ok()?;
    is_same(alloc, &copied, &[b"a=1", b"b=2"])
}

#[test]
fn values_are_copied(rt: HostRuntime) {
    assert!(rt; key_is_copied(rt.alloc()) == Some(true));
    assert!(rt; tx_is_copied(rt.alloc()) == Some(true));
    assert!(rt; batch_is_copied(rt.alloc()) == Some(true));
}
