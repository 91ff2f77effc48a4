//! The heights that replica 1 of four has opened. The replica is mute.

ghost use Rattle.std.specs.Prelude.{◌≡◌};
ghost use Rattle.ledger_model.specs.declared.version.Version.TheVariants.{One};

use super::frames::{parsed, small_value};
use height_row::HeightRow;
use instance::{RoundPlan, RoundStatement};
use key_ring::KeyRing;
use ledger_model::{AppKind, Config, Height, Ignored, ProposeRefusal, ReplicaId, Statement};
use std::alloc::Global;
use test_support::{TestCluster, report_bytes};

#[derive(Drop)]
struct OpenHeights {
    alloc: Global,
    row: HeightRow,
    // the round that is open
    clock: u32,
    ghost four: { row.config.replicas ≡ 4 },
    ghost frames: { row.config.frames ≡ One },
}

impl OpenHeights {
    // A row before any height or round is open.
    fn new(alloc: Global) -> Option<Self> {
        let config = Config::new(4, 1, AppKind::KvStore).ok()?;
        Some(OpenHeights {
            alloc,
            row: HeightRow::new(alloc, &config, ReplicaId::new(1)),
            clock: 0,
        })
    }

    // Why the height isn't opened with [a=1], if it isn't.
    fn refuses(&mut self, height: u32, committed: u32) -> Option<Option<ProposeRefusal>> {
        if committed > 4096 {
            return None;
        }
        let own = small_value(self.alloc, b"a=1")?;
        let height = Height::new(height);
        let answer = self.row.open(self.alloc, height, &own, committed).ok()?;
        Some(answer.err())
    }

    // Why the height may not be opened while no block is committed, if it may not.
    fn refusal(&self, height: u32) -> Option<ProposeRefusal> {
        self.row.may_open(Height::new(height), 0).err()
    }

    // Gives up the heights below this one, unless it is itself given up already. Returns whether it did.
    fn retires(&mut self, floor: u32) -> bool {
        let floor = Height::new(floor);
        if floor < self.row.floor() {
            return false;
        }
        self.row.retire(floor);
        true
    }

    // Opens these heights in this order. Returns the first that isn't opened, if there is one.
    fn first_unopened(&mut self, heights: &[u32]) -> Option<u32> {
        for height in heights {
            if self.refuses(*height, 0) != Some(None) {
                return Some(*height);
            }
        }
        None
    }

    // The plan for this height as the next round opens.
    fn plan(&self, height: u32) -> Option<RoundPlan> {
        let height = Height::new(height);
        if self.clock >= 1000 || self.row.get(height).is_none() {
            return None;
        }
        self.row.plan_end(self.alloc, height, self.clock).ok()
    }

    // Whether the plan for the height is a report on it.
    fn reports_on(&self, height: u32) -> bool {
        match self.plan(height) {
            Some(plan) => is_report_on(&plan, height),
            None => false,
        }
    }

    // Ends the open round at this height. Returns whether there was memory.
    fn ends_round_at(&mut self, height: u32) -> bool {
        let height = Height::new(height);
        if self.clock >= 1000 || self.row.get(height).is_none() {
            return false;
        }
        let Ok(RoundPlan { ending, .. }) = self.row.plan_end(self.alloc, height, self.clock) else {
            return false;
        };
        self.row
            .close(height, ending, RoundStatement::Mute, self.clock);
        true
    }

    // Ends the open round at heights 1 and 2. Returns whether there was memory.
    fn ends_round(&mut self) -> bool {
        if !self.ends_round_at(1) || !self.ends_round_at(2) {
            return false;
        }
        self.clock = self.clock.wrapping_add(1);
        true
    }

    // Why the frame is ignored, if it is.
    fn ignores(&mut self, ring: &KeyRing, bytes: &[u8]) -> Option<Option<Ignored>> {
        let frame = parsed(self.alloc, bytes)?;
        if self.clock > 1000
            || frame.statement().signer().number() >= 4
            || self.row.get(frame.statement().height()).is_none()
        {
            return None;
        }
        match self.row.read(self.alloc, ring, frame, self.clock) {
            Ok(answer) => Some(answer.err()),
            Err(_) => None,
        }
    }

    fn is_open(&self, height: u32) -> bool {
        self.row.get(Height::new(height)).is_some()
    }

    fn is_decided(&self, height: u32) -> bool {
        self.row.decided_at(Height::new(height)).is_some()
    }

    // The first of these heights that isn't at its place, if there is one. A height that isn't open has none.
    fn first_misplaced(&self, places: &[(u32, Option<usize>)]) -> Option<u32> {
        for &(height, place) in places {
            if self.row.place(Height::new(height)) != place {
                return Some(height);
            }
        }
        None
    }

    // Whether these are the open heights, in order.
    fn has_open(&self, wanted: &[u32]) -> bool {
        let mut open = self.row.instances();
        for &height in wanted {
            match open.next() {
                Some(instance) if instance.height().number() == height => {}
                _ => return false,
            }
        }
        open.next().is_none()
    }
}

// Whether the plan is a report on the height.
fn is_report_on(plan: &RoundPlan, height: u32) -> bool {
    match &plan.statement {
        Some(Statement::Report(report)) => report.height.number() == height,
        _ => false,
    }
}

#[test]
fn a_height_is_refused_by_the_first_cause(rt: HostRuntime) {
    let mut replica = OpenHeights::new(rt.alloc()).expect(&rt, "a replica");
    for &(height, committed, answer) in &[
        (0, 0, Some(ProposeRefusal::Closed)),
        (4097, 0, Some(ProposeRefusal::Closed)),
        (5, 0, Some(ProposeRefusal::TooFar)),
        (4, 0, None),
        (4, 0, Some(ProposeRefusal::AlreadyOpen)),
        (5, 1, None),
    ] {
        assert!(rt;
            replica.refuses(height, committed) == Some(answer),
            "{height} {answer:?}"
        );
    }
}

#[test]
fn open_heights_ascend(rt: HostRuntime) {
    let mut replica = OpenHeights::new(rt.alloc()).expect(&rt, "a replica");
    assert_eq!(rt; replica.first_unopened(&[3, 1, 4, 2]), None);
    assert!(rt; replica.has_open(&[1, 2, 3, 4]));
}

// Heights 2, 3 and 5 are never opened.
#[test]
fn places_are_counted_from_the_floor(rt: HostRuntime) {
    let mut replica = OpenHeights::new(rt.alloc()).expect(&rt, "a replica");
    assert_eq!(rt; replica.first_unopened(&[4, 1]), None);
    let opened = [(0, None), (1, Some(0)), (2, None), (4, Some(3)), (5, None)];
    assert_eq!(rt; replica.first_misplaced(&opened), None);
    assert!(rt; replica.retires(3));
    assert!(rt; replica.refuses(6, 2) == Some(None));
    let retired = [(1, None), (3, None), (4, Some(1)), (5, None), (6, Some(3))];
    assert_eq!(rt; replica.first_misplaced(&retired), None);
    assert!(rt; replica.has_open(&[4, 6]));
}

#[test]
fn retiring_above_all_open_heights_leaves_none(rt: HostRuntime) {
    let mut replica = OpenHeights::new(rt.alloc()).expect(&rt, "a replica");
    assert_eq!(rt; replica.first_unopened(&[1, 2]), None);
    assert!(rt; replica.retires(4));
    assert!(rt; replica.has_open(&[]));
    assert!(rt; replica.refuses(4, 0) == Some(None));
    assert_eq!(rt; replica.first_misplaced(&[(2, None), (4, Some(0))]), None);
}

// The first of three.
#[test]
fn a_retired_height_is_not_open(rt: HostRuntime) {
    let mut replica = OpenHeights::new(rt.alloc()).expect(&rt, "a replica");
    assert_eq!(rt; replica.first_unopened(&[1, 2, 3]), None);
    assert!(rt; replica.retires(2));
    assert_eq!(rt; replica.row.floor().number(), 2);
    assert!(rt; !replica.is_open(1) && replica.is_open(2) && replica.is_open(3));
    assert!(rt; replica.refuses(1, 0) == Some(Some(ProposeRefusal::Retired)));
    assert!(rt; replica.refusal(0) == Some(ProposeRefusal::Closed));
}

fn ends_phase(replica: &mut OpenHeights) -> bool {
    for _ in 0u8..4 {
        if !replica.ends_round() {
            return false;
        }
    }
    true
}

#[test]
fn each_height_is_reported_on_by_itself(rt: HostRuntime) {
    let mut replica = OpenHeights::new(rt.alloc()).expect(&rt, "a replica");
    assert_eq!(rt; replica.first_unopened(&[1, 2]), None);
    for phase in 1u8..3 {
        assert!(rt;
            replica.reports_on(1) && replica.reports_on(2),
            "phase {phase}"
        );
        assert!(rt; ends_phase(&mut replica), "phase {phase}");
    }
    assert!(rt; replica.is_open(2) && !replica.is_open(3));
    assert!(rt; !replica.is_decided(1));
}

// The replica's answer to replica 2's report on a height.
fn answer(
    replica: &mut OpenHeights,
    cluster: &mut TestCluster,
    height: u8,
) -> Option<Option<Ignored>> {
    let bytes = cluster.frame(2, &report_bytes(height, 1, 2, b'a')).ok()?;
    replica.ignores(cluster.ring(), &bytes)
}

// In the first round.
#[test]
fn a_frame_is_read_at_its_height_alone(rt: HostRuntime) {
    let mut cluster = TestCluster::new(rt.alloc(), 4, 1).expect(&rt, "a cluster");
    let mut replica = OpenHeights::new(rt.alloc()).expect(&rt, "a replica");
    assert_eq!(rt; replica.first_unopened(&[1, 2]), None);
    assert!(rt; replica.ends_round());
    for &(height, wanted) in &[
        (1, None),
        (1, Some(Ignored::Repeated)),
        (2, None),
        (2, Some(Ignored::Repeated)),
    ] {
        assert!(rt;
            answer(&mut replica, &mut cluster, height) == Some(wanted),
            "{height} {wanted:?}"
        );
    }
}
