//! Which reports of a phase find a value, as masks that were worked out by hand.

use super::read_reports::{add_all, add_one, four, read};
use std::alloc::Global;
use tally::PhaseReports;
use test_support::{ReportFields, value};

// Replica 0 finds x. Replica 1 names every value and has a lock on y, so it finds y alone. Replica 2 names x and y and has
// a lock on x, so it finds x alone. Replica 3 names z; its initial value i is not proper.
const REPORTS: [ReportFields<'static>; 4] = [
    ReportFields {
        signer: 0,
        all: false,
        initial: b"x",
        proper: &[b"x"],
        locked: &[],
    },
    ReportFields {
        signer: 1,
        all: true,
        initial: b"x",
        proper: &[b"x"],
        locked: &[b"y"],
    },
    ReportFields {
        signer: 2,
        all: false,
        initial: b"y",
        proper: &[b"x", b"y"],
        locked: &[b"x"],
    },
    ReportFields {
        signer: 3,
        all: false,
        initial: b"i",
        proper: &[b"z"],
        locked: &[],
    },
];

// Replica 2 holds locks on two values, so it finds neither; replica 3 finds every value.
const ALL: [ReportFields<'static>; 2] = [
    ReportFields {
        signer: 2,
        all: true,
        initial: b"x",
        proper: &[b"x"],
        locked: &[b"x", b"y"],
    },
    ReportFields {
        signer: 3,
        all: true,
        initial: b"i",
        proper: &[b"z"],
        locked: &[],
    },
];

// The masks of the replicas that find x, y, z, and w, which no report contains.
fn found(alloc: Global, reports: &PhaseReports) -> Option<[u16; 4]> {
    Some([
        reports.finds(&value(alloc, b"x").ok()?),
        reports.finds(&value(alloc, b"y").ok()?),
        reports.finds(&value(alloc, b"z").ok()?),
        reports.finds(&value(alloc, b"w").ok()?),
    ])
}

fn found_by(alloc: Global, fields: &[ReportFields<'_>]) -> Option<[u16; 4]> {
    found(alloc, &read(alloc, &four()?, fields)?)
}

#[test]
fn a_report_finds_what_it_names_and_holds_no_other_lock(rt: HostRuntime) {
    assert!(rt; found_by(rt.alloc(), &REPORTS) == Some([5, 2, 8, 0]));
    assert!(rt; found_by(rt.alloc(), &ALL) == Some([8, 8, 8, 8]));
}

// Reads the reports of one phase, and then those of the next, and replica 2's report of the first once more. Returns whether
// that one is the first of its signer, and the masks.
fn of_next_phase(alloc: Global) -> Option<(bool, [u16; 4])> {
    let mut reports = read(alloc, &four()?, &REPORTS)?;
    reports.clear();
    add_all(alloc, &mut reports, &ALL)?;
    let is_first = add_one(alloc, &mut reports, &REPORTS[2])?;
    Some((is_first, found(alloc, &reports)?))
}

#[test]
fn a_phase_keeps_the_first_report_of_each_and_none_of_the_phase_before(rt: HostRuntime) {
    assert!(rt; of_next_phase(rt.alloc()) == Some((false, [8, 8, 8, 8])));
}

// The initial value, the proper ones and the locked ones of the four reports, each once: x, y, i, z.
fn different(alloc: Global) -> Option<(usize, u16, u16)> {
    let reports = read(alloc, &four()?, &REPORTS)?;
    Some((reports.values().len(), reports.mask(), reports.all()))
}

#[test]
fn each_value_is_numbered_once(rt: HostRuntime) {
    assert!(rt; different(rt.alloc()) == Some((4, 15, 2)));
}
