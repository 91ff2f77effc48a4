//! A world takes a list of steps in one call, and the same steps one by one.
use crate::fault::Fault;
use crate::playing::new_randoms;
use adversary_net::{World, count_correct};
use app_kinds::AnyKind;
use app_states::new_apps;
use bytes::Bytes;
use cluster_setup::ClusterSeed;
use history_bytes::history_bytes;
use ledger_model::{AppKind, Config, Height, Key, ReplicaId, WorldRefusal, WorldReply, WorldStep};
use lm_ots::{Params, TreeHeight, Width};
use std::alloc::{AllocError, Global};
use std::hash::RandomState;
use std::slice;
use std::test::Fail;

/// Four replicas, of which one lies.
pub(crate) fn new_world(alloc: Global, random: RandomState) -> Result<World<AnyKind>, Fault> {
    let cluster = ClusterSeed {
        config: Config::new(4, 1, AppKind::KvStore)?,
        params: Params {
            width: Width::W8,
            height: TreeHeight::H5,
        },
        seed: [0; 32],
    };
    let liars = [ReplicaId::new(3)];
    let count = count_correct(&cluster.config, &liars);
    let apps = new_apps(alloc, AppKind::KvStore, count)?;
    let randoms = new_randoms(alloc, random, count)?;
    Ok(World::new(alloc, &cluster, &liars, apps, randoms)?)
}

fn submit(replica: u8, text: &'static [u8]) -> WorldStep {
    WorldStep::Submit(ReplicaId::new(replica), Bytes::from_static(text))
}

fn propose(replica: u8) -> WorldStep {
    WorldStep::Propose(ReplicaId::new(replica), Height::new(1))
}

fn round_end(replica: u8) -> WorldStep {
    WorldStep::RoundEnd(ReplicaId::new(replica))
}

fn retire(replica: u8) -> WorldStep {
    WorldStep::Retire(ReplicaId::new(replica), Height::new(2))
}

fn pass(from: u8, index: usize, to: u8) -> WorldStep {
    WorldStep::Pass {
        from: ReplicaId::new(from),
        index,
        to: ReplicaId::new(to),
    }
}

fn inject(to: u8) -> WorldStep {
    WorldStep::Inject {
        to: ReplicaId::new(to),
        bytes: Bytes::from_static(b"x"),
    }
}

fn key_a(alloc: Global) -> Result<Key, Fault> {
    let bytes = Vec::from_slice(alloc, b"a".as_slice())?;
    match Key::new(bytes) {
        Ok(key) => Ok(key),
        Err(_) => Err(Fault::NoKey),
    }
}

/// Steps of each kind, and some that are refused.
fn steps(alloc: Global) -> Result<Vec<WorldStep>, Fault> {
    let key = key_a(alloc)?;
    let steps = vec![in alloc;
        submit(0, b"a=1"),
        propose(0),
        propose(1),
        propose(2),
        round_end(0),
        round_end(1),
        round_end(2),
        pass(0, 0, 1),
        pass(0, 0, 1),
        pass(0, 1, 1),
        pass(3, 0, 1),
        pass(0, 0, 3),
        pass(0, 0, 4),
        submit(3, b"b=1"),
        round_end(9),
        WorldStep::Execute(ReplicaId::new(0)),
        WorldStep::Query(ReplicaId::new(0), key, Height::new(0)),
        inject(2),
        inject(3),
        submit(0, b""),
        retire(0),
        retire(3),
    ];
    match steps {
        Ok(steps) => Ok(steps),
        Err(_) => Err(Fault::NoMemory),
    }
}

fn done(replica: u8, entry: usize) -> WorldReply {
    WorldReply::Done(ReplicaId::new(replica), entry)
}

const NO_FRAME: WorldReply = WorldReply::Refused(WorldRefusal::NoSuchFrame);

const NO_REPLICA: WorldReply = WorldReply::Refused(WorldRefusal::NoSuchReplica);

const LIAR: WorldReply = WorldReply::Refused(WorldRefusal::Liar);

/// The replies to the steps, in order.
fn answers() -> [WorldReply; 22] {
    [
        done(0, 0),
        done(0, 1),
        done(1, 0),
        done(2, 0),
        done(0, 2),
        done(1, 1),
        done(2, 1),
        done(1, 2),
        done(1, 3),
        NO_FRAME,
        LIAR,
        LIAR,
        NO_REPLICA,
        LIAR,
        NO_REPLICA,
        done(0, 3),
        done(0, 4),
        done(2, 2),
        LIAR,
        done(0, 5),
        done(0, 6),
        LIAR,
    ]
}

/// For each entry, the replica that it was added at.
const ORDER: [u8; 14] = [0, 0, 1, 2, 0, 1, 2, 1, 1, 0, 0, 2, 0, 0];

/// Takes the steps one by one.
fn run_one_by_one(
    alloc: Global,
    world: &mut World<AnyKind>,
    steps: &[WorldStep],
) -> Result<Vec<WorldReply>, AllocError> {
    let mut answers = Vec::new(alloc);
    for step in steps {
        for answer in world.run(slice::from_ref(step))? {
            answers.push(answer)?;
        }
    }
    Ok(answers)
}

fn order_numbers(alloc: Global, world: &World<AnyKind>) -> Result<Vec<u8>, AllocError> {
    world
        .order()
        .iter()
        .map(|replica| replica.number())
        .collect(alloc)
}

/// The histories as bytes, one after the other.
pub(crate) fn histories(alloc: Global, world: &World<AnyKind>) -> Result<Vec<Vec<u8>>, AllocError> {
    let mut spelled = Vec::new(alloc);
    for history in world.histories()? {
        spelled.push(history_bytes(alloc, &history)?)?;
    }
    Ok(spelled)
}

#[test]
fn a_list_is_run_as_its_steps_one_by_one(rt: HostRuntime) -> Result<(), Fail> {
    let alloc = rt.alloc();
    let random = RandomState::new(&rt)?;
    let steps = steps(alloc)?;
    let mut at_once = new_world(alloc, random)?;
    let mut one_by_one = new_world(alloc, random)?;
    let wanted = answers();
    let found = at_once.run(&steps)?;
    let found_one_by_one = run_one_by_one(alloc, &mut one_by_one, &steps)?;
    assert_eq!(rt; found.as_slice(), wanted.as_slice());
    assert_eq!(rt; found_one_by_one.as_slice(), wanted.as_slice());
    assert_eq!(rt;
        order_numbers(alloc, &at_once)?.as_slice(),
        ORDER.as_slice()
    );
    assert_eq!(rt;
        order_numbers(alloc, &one_by_one)?.as_slice(),
        ORDER.as_slice()
    );
    let spelled = histories(alloc, &at_once)?;
    assert_eq!(rt; spelled.len(), 3);
    assert_eq!(rt; spelled, histories(alloc, &one_by_one)?);
    Ok(())
}
