//! When rounds end, in milliseconds.
use round_pacer::{Schedule, due, until_due};

/// The start, the time, the base time, the number of ends so far, and how many more are due.
const CASES: [(u64, u64, u32, u32, u32); 16] = [
    // With a base of 200 the ends are due 201, 403, 606 and 810 milliseconds after the start.
    (1000, 1200, 200, 0, 0),
    (1000, 1201, 200, 0, 1),
    (1000, 1402, 200, 0, 1),
    (1000, 1403, 200, 0, 2),
    (1000, 1606, 200, 2, 1),
    (1000, 1605, 200, 2, 0),
    // A clock that was set back, and the time before the next end.
    (1000, 500, 200, 0, 0),
    (1000, 1403, 200, 3, 0),
    // The fortieth end.
    (0, 8819, 200, 0, 39),
    (0, 8820, 200, 0, 40),
    // With a base of 100 the third end is due after 306 milliseconds.
    (0, 305, 100, 0, 2),
    (0, 306, 100, 0, 3),
    (0, 526_850, 1, 0, 1024),
    (0, 526_850, 1, 1000, 25),
    // After a long pause, as many as one call counts.
    (0, u64::MAX, 60_000, 5, 1024),
    (0, 525_823, 1, 0, 1023),
];

#[test]
fn ends_are_due_by_the_millisecond(rt: HostRuntime) {
    for &(start, now, base, ended, wanted) in &CASES {
        assert_eq!(rt; due(start, now, base, ended), wanted, "{now} {ended}");
    }
}

/// The start, the time, the base time, the number of ends so far, and the time until the next.
const PAUSES: [(u64, u64, u32, u32, u64); 6] = [
    (1000, 1000, 200, 0, 201),
    (1000, 1200, 200, 0, 1),
    (1000, 1201, 200, 0, 0),
    (1000, 1201, 200, 1, 202),
    // A clock that was set back, and an end that no number of milliseconds reaches.
    (1000, 500, 200, 0, 701),
    (u64::MAX, 0, 1, 0, u64::MAX),
];

#[test]
fn the_next_end_is_awaited_by_the_millisecond(rt: HostRuntime) {
    for &(start, now, base, ended, wanted) in &PAUSES {
        assert_eq!(rt; until_due(start, now, base, ended), wanted, "{now} {ended}");
    }
}

/// The round and the moment at which a schedule began anew, the time, the number of ends so far, whether the next is due, and the time until
/// then. The base time is 10 milliseconds.
const ANEW: [(u32, u64, u64, u32, bool, u64); 8] = [
    // From the start on the ends are due after 11, 23 and 36 milliseconds.
    (0, 0, 11, 0, true, 0),
    (0, 0, 22, 1, false, 1),
    (0, 0, 36, 2, true, 0),
    // It began anew at the end of round 3, after 40 milliseconds: the next ends are due after 51 and 63.
    (3, 40, 50, 3, false, 1),
    (3, 40, 51, 3, true, 0),
    (3, 40, 51, 4, false, 12),
    // The ends up to that one are due from that moment on.
    (3, 40, 40, 0, true, 0),
    (3, 40, 39, 2, false, 1),
];

#[test]
fn a_schedule_goes_on_from_where_it_began_anew(rt: HostRuntime) {
    for &(round, moment_ms, now, ended, is_due, left) in &ANEW {
        let schedule = Schedule {
            base_ms: 10,
            round,
            moment_ms,
        };
        let found = (schedule.is_due(now, ended), schedule.until_due(now, ended));
        assert!(rt; found == (is_due, left), "{round} {now} {ended} {found:?}");
    }
}

/// The time and the round at which a schedule begins anew, one after another, and the round and the moment that it then has. The base time is
/// 10 milliseconds.
const BEGINNINGS: [(u64, u32, u32, u64); 4] = [
    (40, 3, 3, 40),
    // An earlier round: that of the last time stays.
    (45, 2, 3, 45),
    // The end of round 5 is due 23 milliseconds after that of round 3.
    (50, 5, 5, 68),
    (100, 5, 5, 100),
];

#[test]
fn a_schedule_begins_anew_at_a_round_end(rt: HostRuntime) {
    let mut schedule = Schedule::new(10);
    for &(now, at, round, moment_ms) in &BEGINNINGS {
        schedule.begin_anew(now, at);
        let expected = Schedule {
            base_ms: 10,
            round,
            moment_ms,
        };
        assert!(rt; schedule == expected, "{now} {at} {schedule:?}");
    }
}
