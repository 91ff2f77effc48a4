//! What a replica proposes and sends, by the version of its cluster's frames.
use crate::fault::Fault;
use crate::playing::played;
use crate::scripts::{SEVENTEEN, SEVENTEEN_IN_VERSION_2, Script};
use app_kinds::AnyKind;
use ledger_model::ReplicaId;
use locked_replica::State;
use std::alloc::Global;
use std::hash::RandomState;
use std::test::Fail;

/// How a replica's first string begins.
fn beginning_of(state: &State<AnyKind>) -> Result<[u8; 5], Fault> {
    match state.string(0) {
        Some([a, b, c, d, e, ..]) => Ok([*a, *b, *c, *d, *e]),
        _ => Err(Fault::NoFrame),
    }
}

/// How replica 0's report begins after the script was played: with its length and its first byte.
fn report_begins(alloc: Global, random: RandomState, script: Script) -> Result<[u8; 5], Fault> {
    let simulation = played(alloc, random, script)?;
    match simulation.world().state(ReplicaId::new(0)) {
        Some(state) => beginning_of(state),
        None => Err(Fault::NoHistory),
    }
}

// A report names its batch twice, so 17 transactions of three bytes are eight bytes more than 16.
#[test]
fn reports_of_17_transactions(rt: HostRuntime) -> Result<(), Fail> {
    let random = RandomState::new(&rt)?;
    for (script, wanted) in [
        (SEVENTEEN, [0, 0, 9, 0xbd, 0x01]),
        (SEVENTEEN_IN_VERSION_2, [0, 0, 9, 0xc5, 0x11]),
    ] {
        let begun = report_begins(rt.alloc(), random, script)?;
        assert!(rt; begun == wanted, "{begun:?} {wanted:?}");
    }
    Ok(())
}
