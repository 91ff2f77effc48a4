//! The index of the reports that were sent or signed so far, and the serving reports that it finds.
ghost use Rattle.std.specs.Prelude.{◌≡◌, ◌+◌, ◌≤◌, ℕ, List, [], length, IfOk, IfSome, OnOk};
ghost use Rattle.std.specs.List.{AllByRecursion};
ghost use Rattle.ledger_model.specs.Spelling.{IsSignedReport};
ghost use Rattle.adversary_net.specs.WorldViews.{WorldView};
ghost use Rattle.simulation.specs.Indexes.{IsIndexOf};
ghost use Rattle.simulation.specs.Playing.{serving, all_serving, simulation_of};

use crate::report_list::ReportList;
use abci::Application;
use adversary_net::World;
use bytes::Bytes;
use ledger_model::{Phase, ReplicaId, SignedReport};
use scenario_texts::Lie;
use std::alloc::{AllocError, Global};

/// The reports that were sent or signed so far. It is extended only when a report is looked up.
#[derive(Drop)]
pub(crate) struct ReportIndex {
    /// For each replica, from 0 on, the reports that it sent. A list is made when it is first needed; a liar's stays empty.
    pub(crate) sent: Vec<ReportList>,
    /// The reports that liars signed.
    pub(crate) lies: ReportList,
}

impl ReportIndex {
    /// The index before any lookup.
    pub(crate) fn new(alloc: Global) -> Self
        ensures sent { result.sent.items ≡ [] }
        ensures reports { result.lies.reports.items ≡ [] }
        ensures seen { result.lies.seen ≡ 0 }
    {
        ReportIndex {
            sent: Vec::new(alloc),
            lies: ReportList::new(alloc),
        }
    }
}

/// Makes the list of this replica, if it is the next one and is missing.
fn make_list(alloc: Global, index: &mut ReportIndex, replica: u8) -> Result<(), AllocError>
    requires { replica ≤ length index.old.sent.items }
    ensures made { OnOk result (replica + 1 ≤ length index.new.sent.items) }
    // It stays an index of whatever it was an index of.
    ensures index { (c : WorldView) (lies : List (List ℕ)) → IsIndexOf index.old c lies → IsIndexOf index.new c lies }
{
    if index.sent.len() == usize::from(replica) {
        index.sent.push(ReportList::new(alloc))?;
    }
    Ok(())
}

/// The earliest serving report of a replica in the source phase.
fn serving<A: Application>(
    alloc: Global,
    index: &mut ReportIndex,
    world: &World<A>,
    lies: &[Bytes],
    lie: &Lie,
    source: Phase,
    replica: u8,
) -> Result<Option<SignedReport>, AllocError>
    requires index { IsIndexOf index.old world.now lies.now }
    requires next { replica ≤ length index.old.sent.items }
    ensures found { IfOk result (λ found. found ≡ serving (simulation_of world.now lies.now) lie.now source replica) }
    ensures spelled { IfOk result (λ found. IfSome found (λ signed. IsSignedReport lie.now.version signed)) }
    ensures made { OnOk result (replica + 1 ≤ length index.new.sent.items) }
    ensures index { IsIndexOf index.new world.now lies.now }
{
    make_list(alloc, index, replica)?;
    let id = ReplicaId::new(replica);
    match world.state(id) {
        Some(state) => {
            let list = &mut index.sent[usize::from(replica)];
            list.follow_history(alloc, state)?;
            list.first_serving(alloc, lie, source, id)
        }
        None => {
            index.lies.follow_frames(alloc, lies)?;
            index.lies.first_serving(alloc, lie, source, id)
        }
    }
}

/// The serving reports of the source phase, at most one for each replica, in ascending order.
///
/// The only error is allocation failure.
pub(crate) fn all_serving<A: Application>(
    alloc: Global,
    index: &mut ReportIndex,
    world: &World<A>,
    lies: &[Bytes],
    lie: &Lie,
    source: Phase,
) -> Result<Vec<SignedReport>, AllocError>
    requires index { IsIndexOf index.old world.now lies.now }
    ensures found { IfOk result (λ found. found.items ≡ all_serving (simulation_of world.now lies.now) lie.now source) }
    ensures spelled { IfOk result (λ found. AllByRecursion (IsSignedReport lie.now.version) found.items) }
    ensures index { IsIndexOf index.new world.now lies.now }
{
    let mut reports = Vec::new(alloc);
    for replica in 0..world.config().replicas {
        if let Some(report) = serving(alloc, index, world, lies, lie, source, replica)? {
            reports.push(report)?;
        }
    }
    Ok(reports)
}
