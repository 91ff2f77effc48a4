//! Which calls an executor and a pool make on an application, and in which order.

use super::tests::{is_run, submits};
use super::traced::{Call, MAX_CALLS, Traced};
use abci::{Application, QueryFault};
use abci_executor::Executor;
use app_kinds::Counter;
use batch_pool::Pool;
use ledger_model::AppKind;
use std::alloc::Global;
use std::hash::RandomState;
use std::test::Fail;
use test_support::batch;

/// InitChain once; then for each block BeginBlock, DeliverTx in order, EndBlock and Commit, as ABCI 0.17.0 prescribes;
/// and no other calls.
const MADE: [Option<Call>; MAX_CALLS] = [
    Some(Call::InitChain),
    Some(Call::CheckNew(7)),
    Some(Call::BeginBlock(1)),
    Some(Call::DeliverTx(0)),
    Some(Call::DeliverTx(1)),
    Some(Call::EndBlock),
    Some(Call::Commit),
    Some(Call::Recheck(7)),
    None,
];

// Offers one transaction and runs a block of two others. Returns whether all are accepted.
fn offers_and_runs<A: Application>(
    alloc: Global,
    executor: &mut Executor<A>,
    pool: &mut Pool,
) -> bool {
    let Ok(block) = batch(alloc, &[&[0], &[1]]) else {
        return false;
    };
    submits(pool, executor.app(), &[7], Ok(())) && is_run(alloc, executor, pool, &block, &[0, 0])
}

// Why a query at a height returns no count.
fn fault_at<A: Application>(executor: &Executor<A>, height: u32) -> Option<QueryFault> {
    executor.query(b"count", height).err()
}

// Whether the calls were those of ABCI, in its order.
fn is_in_order<A: Application>(executor: &Executor<Traced<A>>) -> bool {
    executor.app().calls() == MADE
}

// Whether a query at the last height finds no memory, and another height isn't held.
fn hands_on_faults<A: Application>(executor: &Executor<A>) -> bool {
    let wanted = (Some(QueryFault::NoMemory), Some(QueryFault::NotHeld));
    (fault_at(executor, 0), fault_at(executor, 2)) == wanted
}

// The executor forwards that the application found no memory for its answer, and still reports a height that isn't held.
#[tactic(auto, unfolding(ledger_model::specs::Applications::run))]
#[test]
fn calls_come_in_order_and_faults_are_handed_on(rt: HostRuntime) -> Result<(), Fail> {
    let random = RandomState::new(&rt)?;
    let mut executor = Executor::new(Traced::new(Counter::new(rt.alloc(), AppKind::Counter)))?;
    let mut pool = Pool::new(rt.alloc(), random);
    assert!(rt;
        offers_and_runs(rt.alloc(), &mut executor, &mut pool)
            && is_in_order(&executor)
            && hands_on_faults(&executor)
    );
    Ok(())
}
