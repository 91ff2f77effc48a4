//! The three kinds: their codes, their values, and their hashes.

use super::tests::{COUNT_OF_ZERO, has_result};
use abci::{Application, CheckKind, Info, QueryFault};
use abci_executor::{Executor, run_block};
use app_kinds::{Counter, KvStore, Purse};
use ledger_model::{AppKind, Height};
use std::alloc::Global;
use std::test::Fail;
use test_support::{batch, tx};

/// The hash of a store with `v` under the empty key, `b=c` under `a`, and `k` under `k`.
const THREE_PAIRS: [u8; 32] = [
    0xc4, 0xce, 0x23, 0xc6, 0xc2, 0xf5, 0xdd, 0x61, 0x77, 0xbc, 0x41, 0xfd, 0x3e, 0xd1, 0x83, 0xfe,
    0x5e, 0xe4, 0xd1, 0x30, 0x69, 0x9d, 0x56, 0xa4, 0xe6, 0xe1, 0xac, 0xa6, 0x23, 0x13, 0x38, 0xa3,
];

/// The hash of a counter at 2.
const COUNT_OF_TWO: [u8; 32] = [
    0x35, 0x50, 0x17, 0x0f, 0x18, 0x92, 0x4a, 0x7a, 0x6c, 0x4c, 0x8a, 0xee, 0x98, 0xb9, 0xa7, 0x8c,
    0x78, 0x61, 0x4b, 0x30, 0x91, 0xc0, 0x67, 0x77, 0x87, 0xfd, 0x14, 0x57, 0xfb, 0x2e, 0xb0, 0xc3,
];

/// The hash of a purse in which account 0 paid 5 to account 1.
const FIVE_PAID: [u8; 32] = [
    0xca, 0x9f, 0xf4, 0xd3, 0x8f, 0x76, 0x02, 0x33, 0x7a, 0xc2, 0x84, 0x0e, 0x68, 0x0b, 0x2c, 0x3e,
    0x86, 0x23, 0xda, 0xc1, 0xb5, 0x9d, 0x8c, 0x05, 0x31, 0xda, 0x92, 0xa4, 0xfb, 0x7b, 0x42, 0x39,
];

/// The number 2 in nine bytes, one more than a number has.
const LONG: &[u8] = b"\x00\x00\x00\x00\x00\x00\x00\x00\x02";

// Whether a block of these transactions has these codes.
fn plays<A: Application>(
    alloc: Global,
    app: &mut A,
    transactions: &[&[u8]],
    codes: &[u32],
) -> bool {
    if app.info().height >= Height::MAX {
        return false;
    }
    let Ok(block) = batch(alloc, transactions) else {
        return false;
    };
    match run_block(alloc, app, &block) {
        Ok(done) => done.codes.as_slice() == codes,
        Err(_) => false,
    }
}

// Whether an application has this value under a key, or none.
fn holds<A: Application>(app: &A, key: &[u8], wanted: Option<&[u8]>) -> bool {
    match app.query(key, 0) {
        Ok(Some(value)) => wanted == Some(value.as_slice()),
        Ok(None) => wanted.is_none(),
        Err(_) => false,
    }
}

// Whether CheckTx has this code for a transaction.
fn checks<A: Application>(
    alloc: Global,
    app: &A,
    bytes: &[u8],
    kind: CheckKind,
    code: u32,
) -> bool {
    match tx(alloc, bytes) {
        Ok(tx) => app.check_tx(&tx, kind) == code,
        Err(_) => false,
    }
}

// Whether Info returns this height and this hash.
fn has_info<A: Application>(app: &A, height: u32, hash: [u8; 32]) -> bool {
    app.info() == Info { height, hash }
}

// Whether a block of four transactions sets three pairs, and no other.
fn sets_three_pairs(alloc: Global, store: &mut KvStore) -> bool {
    let transactions: [&[u8]; 4] = [b"k", b"=v", b"a=1", b"a=b=c"];
    plays(alloc, store, &transactions, &[0, 0, 0, 0])
        && holds(store, b"k", Some(b"k"))
        && holds(store, b"", Some(b"v"))
        && holds(store, b"a", Some(b"b=c"))
        && holds(store, b"b", None)
        && has_info(store, 1, THREE_PAIRS)
}

// The bytes before the first equals sign are the key, or all of them if there is none.
#[test]
fn store_sets_what_stands_after_the_first_sign(rt: HostRuntime) {
    let mut store = KvStore::new(rt.alloc(), AppKind::KvStore);
    assert!(rt; sets_three_pairs(rt.alloc(), &mut store));
}

// Whether the first block counts nothing, because both transactions are too long for a number.
fn counts_nothing(alloc: Global, counter: &mut Counter) -> bool {
    plays(alloc, counter, &[b"123456789", b"9876543210"], &[1, 1])
        && has_info(counter, 1, COUNT_OF_ZERO)
}

// Whether the second block counts the number 0, but not a number of nine bytes.
fn counts_zero(alloc: Global, counter: &mut Counter) -> bool {
    checks(alloc, counter, LONG, CheckKind::New, 1)
        && checks(alloc, counter, b"\x00", CheckKind::New, 0)
        && plays(alloc, counter, &[b"\x00", LONG], &[0, 1])
}

// Whether the third block counts the number 1, which is then refused.
fn counts_one(alloc: Global, counter: &mut Counter) -> bool {
    checks(alloc, counter, b"\x01", CheckKind::New, 0)
        && plays(alloc, counter, &[b"\x01"], &[0])
        && checks(alloc, counter, b"\x01", CheckKind::Recheck, 2)
}

// Whether three blocks counted to 2, which is the only value.
fn is_at_two(counter: &Counter) -> bool {
    has_info(counter, 3, COUNT_OF_TWO)
        && holds(counter, b"count", Some(&[0, 0, 0, 0, 0, 0, 0, 2]))
        && holds(counter, b"counts", None)
        && matches!(counter.query(b"count", 1), Err(QueryFault::NotHeld))
}

#[test]
fn counter_counts_in_turn(rt: HostRuntime) {
    let alloc = rt.alloc();
    let mut counter = Counter::new(alloc, AppKind::Counter);
    assert!(rt;
        counts_nothing(alloc, &mut counter)
            && counts_zero(alloc, &mut counter)
            && counts_one(alloc, &mut counter)
            && is_at_two(&counter)
    );
}

// Whether two blocks of one number each count to 2.
fn counts_two_blocks(alloc: Global, counter: &mut Counter) -> bool {
    plays(alloc, counter, &[b"\x00"], &[0])
        && plays(alloc, counter, &[b"\x01"], &[0])
        && has_info(counter, 2, COUNT_OF_TWO)
        && holds(counter, b"count", Some(&[0, 0, 0, 0, 0, 0, 0, 2]))
}

#[test]
fn counter_counts_two_blocks(rt: HostRuntime) {
    let mut counter = Counter::new(rt.alloc(), AppKind::Counter);
    assert!(rt; counts_two_blocks(rt.alloc(), &mut counter));
}

// Whether account 0 paid 5 to account 1, and no other key has a value.
fn has_five_paid(purse: &Purse) -> bool {
    holds(purse, b"\x00", Some(&[0, 0, 3, 0xe3, 0, 0, 0, 1]))
        && holds(purse, b"\x01", Some(&[0, 0, 3, 0xed, 0, 0, 0, 0]))
        && holds(purse, b"\x00\x00", None)
}

// 5 from account 0 to account 1; the same again; more than the balance; to itself; and too few bytes.
const PAYMENTS: [&[u8]; 5] = [
    b"\x00\x01\x00\x00\x00\x05\x00\x00\x00\x00",
    b"\x00\x01\x00\x00\x00\x05\x00\x00\x00\x00",
    b"\x00\x01\x00\x00\x03\xe4\x00\x00\x00\x01",
    b"\x00\x00\x00\x00\x00\x01\x00\x00\x00\x01",
    b"\x00\x01",
];

#[tactic(auto, unfolding(ledger_model::specs::Applications::run))]
#[test]
fn purse_moves_an_amount_once(rt: HostRuntime) -> Result<(), Fail> {
    let mut executor = Executor::new(Purse::new(rt.alloc(), AppKind::Purse))?;
    let wanted = (1, [0, 2, 3, 4, 1].as_slice(), FIVE_PAID);
    assert!(rt;
        has_result(rt.alloc(), &mut executor, &PAYMENTS, wanted) && has_five_paid(executor.app())
    );
    Ok(())
}

// Runs three empty blocks. Returns the number of the first that doesn't leave the count at 0, if there is one.
fn first_wrong_block(alloc: Global, executor: &mut Executor<Counter>) -> Option<u32> {
    for number in 1..=3 {
        if !has_result(alloc, executor, &[], (number, &[], COUNT_OF_ZERO)) {
            return Some(number);
        }
    }
    None
}

// Whether a query at a height returns the count.
fn has_count_at(executor: &Executor<Counter>, height: u32) -> bool {
    match executor.query(b"count", height) {
        Ok(answer) => answer.value.is_some(),
        Err(_) => false,
    }
}

// Whether `last` is the last height, a query there returns the count, and a query at the other height fails.
fn is_asked_at(executor: &Executor<Counter>, last: u32, other: u32) -> bool {
    executor.app().info().height == last
        && executor.query(b"count", other).is_err()
        && has_count_at(executor, last)
}

#[tactic(auto, unfolding(ledger_model::specs::Applications::run))]
#[test]
fn blocks_follow_one_another(rt: HostRuntime) -> Result<(), Fail> {
    let mut executor = Executor::new(Counter::new(rt.alloc(), AppKind::Counter))?;
    assert_eq!(rt; first_wrong_block(rt.alloc(), &mut executor), None);
    assert!(rt; is_asked_at(&executor, 3, 2));
    Ok(())
}
