//! One height at one of four replicas, which is mute: what it reads, what it plans to make, and what it sends on.

use super::replica::OpenHeight;
use bytes::Bytes;
use instance::{RoundPlan, RoundStatement};
use ledger_model::{Ack, Batch, Ignored, Lock, Report, Statement};
use std::alloc::Global;
use test_support::{TestCluster, ack_bytes, report_bytes, value};

// What a replica plans as a round opens.
#[derive(Clone, Copy)]
enum Task<'a> {
    Nothing,
    // a report of this phase
    Report(u32),
    Lock,
    Ack,
    // only this frame
    SendOn(&'a [u8]),
}

impl OpenHeight {
    // The replica's plan for the next round.
    fn plan(&self) -> Option<RoundPlan> {
        if self.clock >= 1000 {
            return None;
        }
        self.instance.plan_end(self.alloc, self.clock).ok()
    }

    // Whether this is what the replica plans for the next round.
    fn plans(&self, task: Task<'_>) -> bool {
        match self.plan() {
            Some(RoundPlan { statement, ending }) => is_planned(
                &statement,
                ending.sends_on(),
                task,
            ),
            None => false,
        }
    }

    // Opens the next round at a mute replica. Returns whether there was memory.
    fn ends_round(&mut self) -> bool {
        if self.clock >= 1000 {
            return false;
        }
        let Ok(ending) = self.instance.prepare_end(self.alloc, self.clock) else {
            return false;
        };
        self.instance
            .close(ending, RoundStatement::Mute, self.clock);
        self.clock += 1;
        true
    }

    fn ends_rounds(&mut self, count: u32) -> bool {
        for _ in 0..count {
            if !self.ends_round() {
                return false;
            }
        }
        true
    }

    // Whether nothing is decided at height 1.
    fn is_undecided(&self) -> bool {
        self.instance.height().number() == 1 && self.instance.decided().is_none()
    }
}

// Whether a value is [a=1].
fn is_own(value: &Batch) -> bool {
    match value.transactions() {
        [tx] => tx.as_bytes() == b"a=1".as_slice(),
        _ => false,
    }
}

// Whether it is replica 2's report of this phase, which names [a=1] alone.
fn is_report(report: &Report, phase: u32) -> bool {
    report.height.number() == 1
        && report.phase.number() == phase
        && report.signer.number() == 2
        && !report.all
        && report.proper.as_slice().len() == 1
        && report.locked.as_slice().is_empty()
        && is_own(&report.initial)
        && report.names(&report.initial)
}

// Whether it is the lock of phase 1 on [a=1] with three reports.
fn is_lock(lock: &Lock) -> bool {
    lock.height.number() == 1
        && lock.phase.number() == 1
        && lock.signer.number() == 1
        && lock.proof.as_slice().len() == 3
        && is_own(&lock.value)
}

// Whether it is replica 0's acknowledgement of the lock of phase 1 on [a=1].
fn is_ack(ack: &Ack) -> bool {
    ack.height.number() == 1
        && ack.phase.number() == 1
        && ack.signer.number() == 0
        && is_own(&ack.value)
}

fn is_just(frames: &[Bytes], frame: &[u8]) -> bool {
    match frames {
        [sent] => sent.as_slice() == frame,
        _ => false,
    }
}

fn is_planned(statement: &Option<Statement>, frames: &[Bytes], task: Task<'_>) -> bool {
    match (task, statement) {
        (Task::Nothing, None) => frames.is_empty(),
        (Task::Report(phase), Some(Statement::Report(report))) => is_report(report, phase),
        (Task::Lock, Some(Statement::Lock(lock))) => is_lock(lock),
        (Task::Ack, Some(Statement::Ack(ack))) => is_ack(ack),
        (Task::SendOn(frame), None) => is_just(frames, frame),
        _ => false,
    }
}

// A replica in this round, mute until then.
fn replica_in(alloc: Global, id: u8, clock: u32) -> Option<OpenHeight> {
    let mut replica = OpenHeight::open(alloc, id)?;
    if replica.ends_rounds(clock) {
        Some(replica)
    } else {
        None
    }
}

// A cluster of four that signs, and one of its replicas, which reads.
#[derive(Drop)]
struct Scene {
    cluster: TestCluster,
    replica: OpenHeight,
}

impl Scene {
    // The replica in this round, mute until then.
    fn new(alloc: Global, id: u8, clock: u32) -> Option<Self> {
        let cluster = TestCluster::new(alloc, 4, 1).ok()?;
        let replica = replica_in(alloc, id, clock)?;
        Some(Scene { cluster, replica })
    }

    // Whether the replica reads the frame.
    fn reads(&mut self, frame: &[u8]) -> bool {
        self.replica.ignores(self.cluster.ring(), frame) == Some(None)
    }

    // Whether the replica gives this answer to the statement, which its signer signs.
    fn gives_answer(&mut self, signer: u8, statement: &[u8], wanted: Option<Ignored>) -> bool {
        match self.cluster.frame(signer, statement) {
            Ok(frame) => self.replica.ignores(self.cluster.ring(), &frame) == Some(wanted),
            Err(_) => false,
        }
    }

    // Whether the replica gives this answer to a lock of this phase, owner and letter, with the reports of the first
    // `reports` replicas.
    fn gives_answer_to_lock(
        &mut self,
        (phase, owner, letter, reports): (u8, u8, u8, u8),
        wanted: Option<Ignored>,
    ) -> bool {
        match self.cluster.lock_frame(phase, owner, letter, reports) {
            Ok(frame) => self.replica.ignores(self.cluster.ring(), &frame) == Some(wanted),
            Err(_) => false,
        }
    }
}

// Whether a report, an acknowledgement and a lock of phase 1 are ignored because they belong to another round, and
// nothing is decided.
fn reads_nothing(scene: &mut Scene) -> bool {
    let wanted = Some(Ignored::WrongRound);
    scene.gives_answer(0, &report_bytes(1, 1, 0, b'a'), wanted)
        && scene.gives_answer(0, &ack_bytes(1, 1, 0, b'a'), wanted)
        && scene.gives_answer_to_lock((1, 1, b'a', 3), wanted)
        && scene.replica.is_undecided()
}

#[test]
fn nothing_is_read_before_the_first_round(rt: HostRuntime) {
    let mut scene = Scene::new(rt.alloc(), 1, 0).expect(&rt, "a scene");
    assert!(rt; reads_nothing(&mut scene));
}

// A report is read in its place and phase, once, and under its signer's key; an acknowledgement is not read there.
#[test]
fn a_report_round_brings_reports(rt: HostRuntime) {
    let mut scene = Scene::new(rt.alloc(), 0, 1).expect(&rt, "a scene");
    for &(signer, of_phase, named, wanted) in &[
        (2, 2, 2, Some(Ignored::WrongPhase)),
        (3, 1, 2, Some(Ignored::BadSignature)),
        (2, 1, 2, None),
        (2, 1, 2, Some(Ignored::Repeated)),
        (3, 1, 3, None),
    ] {
        let report = report_bytes(1, of_phase, named, b'a');
        assert!(rt;
            scene.gives_answer(signer, &report, wanted),
            "{signer} {named} {wanted:?}"
        );
    }
    let ack = ack_bytes(1, 1, 3, b'a');
    assert!(rt; scene.gives_answer(3, &ack, Some(Ignored::WrongRound)));
}

// The masks of the replicas whose reports find [a=1] and [b=1].
fn finding(scene: &Scene) -> Option<(u16, u16)> {
    let first = value(scene.replica.alloc, b"a=1").ok()?;
    let second = value(scene.replica.alloc, b"b=1").ok()?;
    let instance = &scene.replica.instance;
    Some((instance.finds(&first), instance.finds(&second)))
}

// Replicas 1 and 2 report [a=1], and replica 3 reports [b=1]. As the next phase opens, its reports are forgotten.
#[test]
fn reports_find_values_until_the_next_phase(rt: HostRuntime) {
    let mut scene = Scene::new(rt.alloc(), 0, 1).expect(&rt, "a scene");
    assert!(rt; finding(&scene) == Some((0, 0)));
    for &(signer, letter, wanted) in &[(2, b'a', (4, 0)), (3, b'b', (4, 8)), (1, b'a', (6, 8))] {
        assert!(rt;
            scene.gives_answer(signer, &report_bytes(1, 1, signer, letter), None),
            "{signer}"
        );
        assert!(rt; finding(&scene) == Some(wanted), "{signer}");
    }
    assert!(rt; scene.replica.ends_rounds(3) && finding(&scene) == Some((6, 8)));
    assert!(rt; scene.replica.ends_round() && finding(&scene) == Some((0, 0)));
}

// A lock is read if the phase's owner made it, with enough reports, and once.
#[test]
fn a_lock_is_read_once(rt: HostRuntime) {
    let mut scene = Scene::new(rt.alloc(), 0, 2).expect(&rt, "a scene");
    for &(owner, reports, wanted) in &[
        (2, 3, Some(Ignored::NotOwner)),
        (1, 4, Some(Ignored::BadProof)),
        (1, 3, None),
        (1, 3, Some(Ignored::Repeated)),
    ] {
        assert!(rt;
            scene.gives_answer_to_lock((1, owner, b'a', reports), wanted),
            "{owner} {reports} {wanted:?}"
        );
    }
}

// Locks of phases 1 to 5 on five values, each read in its phase.
#[test]
fn four_values_are_locked_at_most(rt: HostRuntime) {
    let mut scene = Scene::new(rt.alloc(), 0, 2).expect(&rt, "a scene");
    for &(phase, letter, wanted) in &[
        (1, b'a', None),
        (2, b'b', None),
        (3, b'c', None),
        (4, b'd', None),
        (5, b'e', Some(Ignored::TableFull)),
    ] {
        assert!(rt;
            scene.gives_answer_to_lock((phase, phase % 4, letter, 3), wanted),
            "phase {phase}"
        );
        assert!(rt; scene.replica.ends_rounds(4), "phase {phase}");
    }
}

// The replica made no lock.
#[test]
fn an_acknowledgement_of_no_own_lock_is_ignored(rt: HostRuntime) {
    let mut scene = Scene::new(rt.alloc(), 1, 3).expect(&rt, "a scene");
    let ack = ack_bytes(1, 1, 3, b'a');
    assert!(rt; scene.gives_answer(3, &ack, Some(Ignored::NotMine)));
}

// As the first round of a phase opens, a replica reports; a replica that has read nothing makes nothing as the other rounds open.
#[test]
fn a_report_is_made_in_each_phase(rt: HostRuntime) {
    let mut replica = OpenHeight::open(rt.alloc(), 2).expect(&rt, "a replica");
    for &(round, task) in &[
        (1, Task::Report(1)),
        (2, Task::Nothing),
        (3, Task::Nothing),
        (4, Task::Nothing),
        (5, Task::Report(2)),
    ] {
        assert!(rt; replica.plans(task), "round {round}");
        assert!(rt; replica.ends_round(), "round {round}");
    }
}

// Whether the replica reads a report of phase 1 on [a=1] by each of the other three.
fn reads_three_reports(scene: &mut Scene) -> bool {
    scene.gives_answer(0, &report_bytes(1, 1, 0, b'a'), None)
        && scene.gives_answer(2, &report_bytes(1, 1, 2, b'a'), None)
        && scene.gives_answer(3, &report_bytes(1, 1, 3, b'a'), None)
}

// The owner of phase 1 is replica 1.
#[test]
fn an_owner_makes_a_lock_of_three_reports(rt: HostRuntime) {
    let mut scene = Scene::new(rt.alloc(), 1, 1).expect(&rt, "a scene");
    assert!(rt; reads_three_reports(&mut scene));
    assert!(rt; scene.replica.plans(Task::Lock));
}

// Whether replica 0, in round 2, reads this lock of phase 1, acknowledges it as round 3 opens, and sends it on as round 4 opens.
fn acknowledges_and_sends_on(scene: &mut Scene, lock: &[u8]) -> bool {
    scene.reads(lock)
        && scene.replica.plans(Task::Ack)
        && scene.replica.ends_round()
        && scene.replica.plans(Task::SendOn(lock))
}

#[test]
fn a_lock_is_acknowledged_and_sent_on(rt: HostRuntime) {
    let mut scene = Scene::new(rt.alloc(), 0, 2).expect(&rt, "a scene");
    let lock = scene
        .cluster
        .lock_frame(1, 1, b'a', 3)
        .expect(&rt, "a lock");
    assert!(rt; acknowledges_and_sends_on(&mut scene, &lock));
}

// Whether the lock of phase 2 replaces that of phase 1 on the same value: it is read and sent on.
fn is_renewed(scene: &mut Scene) -> bool {
    let Ok(second) = scene.cluster.lock_frame(2, 2, b'a', 3) else {
        return false;
    };
    scene.replica.ends_rounds(4)
        && scene.reads(&second)
        && scene.replica.ends_round()
        && scene.replica.plans(Task::SendOn(&second))
        && scene.replica.ends_round()
}

// Whether a lock on another value, read in the lock-release round, releases it: nothing is sent on in the next phase.
fn is_released(scene: &mut Scene) -> bool {
    scene.gives_answer_to_lock((2, 2, b'b', 3), None)
        && scene.replica.ends_rounds(3)
        && scene.replica.plans(Task::Nothing)
}

// A lock is replaced by a later one on its value, and released in a lock-release round by one on another value.
#[test]
fn a_lock_is_renewed_and_released(rt: HostRuntime) {
    let mut scene = Scene::new(rt.alloc(), 0, 2).expect(&rt, "a scene");
    assert!(rt; scene.gives_answer_to_lock((1, 1, b'a', 3), None));
    assert!(rt; is_renewed(&mut scene));
    assert!(rt; is_released(&mut scene));
}
