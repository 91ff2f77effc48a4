//! Blocks on the executor, and the transactions that wait for them. `examples/` shows that the kind is chosen at run time.

use abci::{Application, Info};
use abci_executor::Executor;
use app_kinds::{Counted, Counter, KvStore, Refusing};
use batch_pool::{Pool, SubmitFault};
use ledger_model::{AppKind, Batch, BlockResult, Height, QueryAnswer, SubmitRefusal, Version};
use std::alloc::Global;
use std::hash::RandomState;
use std::test::Fail;
use test_support::batch;

/// The SHA-256 of `01 || u64 0`, the encoding of a store without pairs.
const EMPTY_STORE: [u8; 32] = [
    0xa5, 0x36, 0xaa, 0x3c, 0xed, 0xe6, 0xea, 0x3c, 0x1f, 0x3e, 0x03, 0x57, 0xc3, 0xc6, 0x0e, 0x0f,
    0x21, 0x6a, 0x8c, 0x89, 0xb8, 0x53, 0xdf, 0x13, 0xb2, 0x9d, 0xaa, 0x8f, 0x85, 0x06, 0x5d, 0xfb,
];

/// The SHA-256 of `01 || u64 1 || 01 61 01 31`, the encoding of a store with `a` at `1`.
const ONE_PAIR: [u8; 32] = [
    0x01, 0x4d, 0x3f, 0xde, 0x3b, 0xb7, 0x6f, 0x07, 0x5a, 0xa3, 0xa7, 0x29, 0x47, 0xb2, 0xae, 0x6a,
    0x78, 0x23, 0x05, 0xaa, 0x12, 0xe2, 0xe3, 0xa7, 0x6d, 0x9b, 0x0c, 0x5e, 0x27, 0xd2, 0xe3, 0x3c,
];

/// The SHA-256 of `02 || u64 0`, the encoding of a counter at 0.
pub(crate) const COUNT_OF_ZERO: [u8; 32] = [
    0x43, 0x22, 0xfd, 0x2b, 0xc0, 0xa1, 0x37, 0xd1, 0x37, 0x5b, 0x37, 0xb3, 0xb2, 0xe2, 0xb4, 0x71,
    0x5b, 0x3d, 0x3d, 0xd7, 0xca, 0x96, 0x82, 0x43, 0x8d, 0x4f, 0xea, 0x0f, 0x84, 0x37, 0xfa, 0xd3,
];

/// The SHA-256 of `02 || u64 3`, the encoding of a counter at 3.
const COUNT_OF_THREE: [u8; 32] = [
    0xdb, 0x53, 0x06, 0x24, 0x8e, 0x03, 0x13, 0xe7, 0x26, 0x19, 0xa6, 0x39, 0xe2, 0x64, 0xf7, 0xef,
    0x52, 0xa6, 0x2e, 0xde, 0x36, 0xba, 0xc7, 0x9e, 0xb7, 0x10, 0xf8, 0x03, 0xb2, 0xf6, 0x3b, 0x3c,
];

/// Runs the next block. `None` if no height is left or memory runs out.
fn execute<A: Application>(
    alloc: Global,
    executor: &mut Executor<A>,
    block: &Batch,
) -> Option<BlockResult> {
    if executor.height() < Height::MAX {
        executor.execute(alloc, block).ok()
    } else {
        None
    }
}

/// Runs a block of these transactions.
fn runs<A: Application>(
    alloc: Global,
    executor: &mut Executor<A>,
    transactions: &[&[u8]],
) -> Option<BlockResult> {
    let block = batch(alloc, transactions).ok()?;
    execute(alloc, executor, &block)
}

/// Runs a block of these transactions. Returns whether it has this number, these codes and this hash.
pub(crate) fn has_result<A: Application>(
    alloc: Global,
    executor: &mut Executor<A>,
    transactions: &[&[u8]],
    (number, codes, hash): (u32, &[u32], [u8; 32]),
) -> bool {
    match runs(alloc, executor, transactions) {
        Some(done) => {
            done.height.number() == number && done.codes.as_slice() == codes && done.hash == hash
        }
        None => false,
    }
}

/// Runs a block, and lets the pool remove its transactions. Returns whether it has these codes.
pub(crate) fn is_run<A: Application>(
    alloc: Global,
    executor: &mut Executor<A>,
    pool: &mut Pool,
    block: &Batch,
    codes: &[u32],
) -> bool {
    let is_met = match execute(alloc, executor, block) {
        Some(done) => done.codes.as_slice() == codes,
        None => false,
    };
    pool.after_block(block, executor.app());
    is_met
}

/// The pool's answer to a transaction.
fn answer<A: Application>(pool: &mut Pool, app: &A, bytes: &[u8]) -> Result<(), SubmitFault> {
    pool.submit(bytes, app)
}

/// Whether the pool gives this answer to a transaction.
pub(crate) fn submits<A: Application>(
    pool: &mut Pool,
    app: &A,
    bytes: &[u8],
    wanted: Result<(), SubmitFault>,
) -> bool {
    answer(pool, app, bytes) == wanted
}

/// Whether an answer has this height and this value.
fn is_answer(answer: &QueryAnswer, height: u32, wanted: &[u8]) -> bool {
    match &answer.value {
        Some(bytes) => answer.height.number() == height && bytes.as_slice() == wanted,
        None => false,
    }
}

/// Whether a key has this value, returned with the last block's height.
fn holds<A: Application>(executor: &Executor<A>, key: &[u8], last: u32, wanted: &[u8]) -> bool {
    match executor.query(key, 0) {
        Ok(answer) => is_answer(&answer, last, wanted),
        Err(_) => false,
    }
}

/// Whether an executor returns this height and this hash.
fn has_info<A: Application>(executor: &Executor<A>, height: u32, hash: [u8; 32]) -> bool {
    executor.info() == Info { height, hash }
}

/// The numbers 0, 1 and 2, in one byte each.
const NUMBERS: [&[u8]; 3] = [b"\x00", b"\x01", b"\x02"];

/// The same numbers in two bytes each.
const LONGER_NUMBERS: [&[u8]; 3] = [b"\x00\x00", b"\x00\x01", b"\x00\x02"];

// Whether a block finds no memory at its second delivery, and leaves the executor as it was.
fn finds_no_memory<A: Application>(alloc: Global, executor: &mut Executor<Counted<A>>) -> bool {
    runs(alloc, executor, &NUMBERS).is_none()
        && has_info(executor, 0, COUNT_OF_ZERO)
        && executor.app().delivered() == 2
}

// Whether a block of three numbers then runs from the same state.
fn counts_to_three<A: Application>(
    alloc: Global,
    executor: &mut Executor<Counted<A>>,
    block: &[&[u8]],
) -> bool {
    let wanted = (1, [0, 0, 0].as_slice(), COUNT_OF_THREE);
    has_result(alloc, executor, block, wanted)
        && executor.app().delivered() == 5
        && holds(executor, b"count", 1, &[0, 0, 0, 0, 0, 0, 0, 3])
}

// Whether a block that found no memory once is followed by this block.
#[tactic(auto, unfolding(ledger_model::specs::Applications::run))]
fn is_followed_by(alloc: Global, block: &[&[u8]]) -> Result<bool, Fail> {
    let mut executor = Executor::new(Counted::new(Refusing::new(
        Counter::new(alloc, AppKind::Counter),
        2,
    )))?;
    Ok(finds_no_memory(alloc, &mut executor) && counts_to_three(alloc, &mut executor, block))
}

// The block that found no memory runs when it is given again; and so does another one.
#[test]
fn a_block_that_found_no_memory_is_run_again(rt: HostRuntime) -> Result<(), Fail> {
    assert!(rt; is_followed_by(rt.alloc(), &NUMBERS)?);
    assert!(rt; is_followed_by(rt.alloc(), &LONGER_NUMBERS)?);
    Ok(())
}

// Whether a pool takes two transactions that encode the number 0, and none of nine bytes.
fn takes_two<A: Application>(pool: &mut Pool, app: &A) -> bool {
    let rejected = Err(SubmitFault::Refused(SubmitRefusal::Rejected(1)));
    submits(pool, app, &[0], Ok(()))
        && submits(pool, app, &[0, 0], Ok(()))
        && submits(pool, app, &[0; 9], rejected)
        && pool.len() == 2
}

// Whether a block with one of the two leaves none, because the other is then refused.
fn drops_the_other(alloc: Global, executor: &mut Executor<Counter>, pool: &mut Pool) -> bool {
    let Ok(block) = batch(alloc, &[&[0]]) else {
        return false;
    };
    is_run(alloc, executor, pool, &block, &[0]) && pool.is_empty()
}

#[tactic(auto, unfolding(ledger_model::specs::Applications::run))]
#[test]
fn a_recheck_drops_what_came_too_late(rt: HostRuntime) -> Result<(), Fail> {
    let random = RandomState::new(&rt)?;
    let mut executor = Executor::new(Counter::new(rt.alloc(), AppKind::Counter))?;
    let mut pool = Pool::new(rt.alloc(), random);
    assert!(rt;
        takes_two(&mut pool, executor.app())
            && drops_the_other(rt.alloc(), &mut executor, &mut pool)
    );
    Ok(())
}

// Runs what a pool of one transaction proposes. Returns whether that transaction waited until then and no longer.
fn is_proposed_and_run<A: Application>(
    alloc: Global,
    executor: &mut Executor<A>,
    pool: &mut Pool,
) -> bool {
    let Ok(block) = pool.reap(Version::One) else {
        return false;
    };
    block.transactions().len() == 1
        && pool.len() == 1
        && is_run(alloc, executor, pool, &block, &[0])
        && pool.is_empty()
}

// Whether the first block is empty, and a transaction that is submitted afterwards is in the second.
fn comes_into_the_next_block<A: Application>(
    alloc: Global,
    executor: &mut Executor<A>,
    pool: &mut Pool,
) -> bool {
    has_result(alloc, executor, &[], (1, &[], EMPTY_STORE))
        && submits(pool, executor.app(), b"a=1", Ok(()))
        && is_proposed_and_run(alloc, executor, pool)
        && has_info(executor, 2, ONE_PAIR)
        && holds(executor, b"a", 2, b"1")
}

// The first block is empty, but has a height and a hash.
#[tactic(auto, unfolding(ledger_model::specs::Applications::run))]
#[test]
fn what_waits_is_proposed_run_and_taken_out(rt: HostRuntime) -> Result<(), Fail> {
    let random = RandomState::new(&rt)?;
    let mut executor = Executor::new(KvStore::new(rt.alloc(), AppKind::KvStore))?;
    let mut pool = Pool::new(rt.alloc(), random);
    assert!(rt; comes_into_the_next_block(rt.alloc(), &mut executor, &mut pool));
    Ok(())
}
