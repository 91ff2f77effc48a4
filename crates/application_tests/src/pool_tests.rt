//! The pool with real applications: what it refuses and in which order, what it proposes, and what a block removes.

use super::tests::{is_run, submits};
use abci_executor::Executor;
use app_kinds::{Counter, KvStore};
use batch_pool::{Pool, SubmitFault};
use ledger_model::{AppKind, Batch, SubmitRefusal, Version};
use std::alloc::Global;
use std::hash::RandomState;
use std::test::Fail;
use test_support::batch;

const EMPTY: Result<(), SubmitFault> = Err(SubmitFault::Refused(SubmitRefusal::Empty));

const TOO_LONG: Result<(), SubmitFault> = Err(SubmitFault::Refused(SubmitRefusal::TooLong));

const DUPLICATE: Result<(), SubmitFault> = Err(SubmitFault::Refused(SubmitRefusal::Duplicate));

const FULL: Result<(), SubmitFault> = Err(SubmitFault::Refused(SubmitRefusal::Full));

const REJECTED: Result<(), SubmitFault> = Err(SubmitFault::Refused(SubmitRefusal::Rejected(1)));

/// Puts the numbers from 0 to `count` - 1 into a pool, each in two bytes.
fn takes_numbers(pool: &mut Pool, app: &Counter, count: u16) -> bool {
    for number in 0..count {
        if !submits(pool, app, &number.to_be_bytes(), Ok(())) {
            return false;
        }
    }
    true
}

/// Whether these are the numbers from `first` on, each in two bytes.
fn are_numbers_from(block: &Batch, first: u16) -> bool {
    let mut next = first;
    for tx in block.transactions() {
        if tx.as_bytes() != next.to_be_bytes().as_slice() {
            return false;
        }
        next = next.saturating_add(1);
    }
    true
}

/// The number of waiting transactions, if they are the numbers from 0 on, in order.
fn numbers_in(pool: &Pool) -> Option<u16> {
    let mut next = 0;
    for tx in pool.transactions() {
        if tx.as_bytes() != u16::to_be_bytes(next).as_slice() {
            return None;
        }
        next = next.saturating_add(1);
    }
    Some(next)
}

/// Bytes, the answer to them, and the number of transactions that wait afterwards.
const LENGTHS: [(&[u8], Result<(), SubmitFault>, usize); 5] = [
    (&[], EMPTY, 0),
    (&[7; 65], TOO_LONG, 0),
    (&[7; 64], Ok(()), 1),
    (&[7], Ok(()), 2),
    (&[7; 64], DUPLICATE, 2),
];

/// Submits the bytes of each case. Returns the index of the first case whose answer or number of waiting transactions is
/// wrong, if there is one.
fn first_wrong_length(pool: &mut Pool, app: &KvStore) -> Option<usize> {
    for (index, &(bytes, wanted, waiting)) in LENGTHS.iter().enumerate() {
        if !submits(pool, app, bytes, wanted) || pool.len() != waiting {
            return Some(index);
        }
    }
    None
}

#[test]
fn lengths_from_1_to_64_are_taken_in(rt: HostRuntime) -> Result<(), Fail> {
    let mut pool = Pool::new(rt.alloc(), RandomState::new(&rt)?);
    let app = KvStore::new(rt.alloc(), AppKind::KvStore);
    assert_eq!(rt; first_wrong_length(&mut pool, &app), None);
    Ok(())
}

// Whether the last place goes to the number 1023, and not to what the application refuses.
fn takes_the_last(pool: &mut Pool, app: &Counter) -> bool {
    submits(pool, app, &[0; 9], REJECTED)
        && submits(pool, app, &1023u16.to_be_bytes(), Ok(()))
        && pool.len() == 1024
}

// Whether a full pool refuses in the order of its refusals, and stays as it is.
fn refuses(pool: &mut Pool, app: &Counter) -> bool {
    submits(pool, app, &[], EMPTY)
        && submits(pool, app, &[0; 65], TOO_LONG)
        && submits(pool, app, &1023u16.to_be_bytes(), DUPLICATE)
        && submits(pool, app, &[0; 9], FULL)
        && submits(pool, app, &1024u16.to_be_bytes(), FULL)
        && pool.len() == 1024
}

// Whether a pool proposes `count` numbers, from `first` on, in a cluster with frames of this version.
fn proposes(pool: &Pool, version: Version, first: u16, count: usize) -> bool {
    match pool.reap(version) {
        Ok(block) => block.transactions().len() == count && are_numbers_from(&block, first),
        Err(_) => false,
    }
}

// Whether a block of the number 2, which the counter refuses because it is not due, and of 0 and 1 leaves the others.
fn runs_three(alloc: Global, executor: &mut Executor<Counter>, pool: &mut Pool) -> bool {
    let Ok(block) = batch(alloc, &[&[0, 2], &[0, 0], &[0, 1]]) else {
        return false;
    };
    is_run(alloc, executor, pool, &block, &[2, 0, 0]) && pool.len() == 1021
}

// Whether the next numbers are proposed then, and the number 2 can be submitted again.
fn goes_on_at_three(pool: &mut Pool, app: &Counter) -> bool {
    proposes(pool, Version::One, 3, 16) && submits(pool, app, &[0, 2], Ok(())) && pool.len() == 1022
}

// Whether a pool is filled with 1024 transactions, and refuses more.
fn is_filled(pool: &mut Pool, app: &Counter) -> bool {
    takes_numbers(pool, app, 1023) && takes_the_last(pool, app) && refuses(pool, app)
}

// The first 16, with frames of version 2 the first 64, are proposed and stay, until a block removes its transactions.
#[tactic(auto, unfolding(ledger_model::specs::Applications::run))]
#[test]
fn a_full_pool_refuses_and_goes_on_behind_a_block(rt: HostRuntime) -> Result<(), Fail> {
    let random = RandomState::new(&rt)?;
    let mut executor = Executor::new(Counter::new(rt.alloc(), AppKind::Counter))?;
    let mut pool = Pool::new(rt.alloc(), random);
    assert!(rt; is_filled(&mut pool, executor.app()));
    assert!(rt; proposes(&pool, Version::One, 0, 16) && proposes(&pool, Version::Two, 0, 64));
    assert!(rt; numbers_in(&pool) == Some(1024));
    assert!(rt;
        runs_three(rt.alloc(), &mut executor, &mut pool)
            && goes_on_at_three(&mut pool, executor.app())
    );
    Ok(())
}
