//! Which values are proper for replica 0 of four, of which one may lie, after one phase.

use super::read_reports::{four, read};
use ledger_model::{Batch, ReplicaId};
use proper_sets::Proper;
use std::alloc::Global;
use test_support::{ReportFields, naming, value, values};

fn opened(alloc: Global, own: &[u8]) -> Option<Proper> {
    Proper::new(alloc, &four()?, &value(alloc, own).ok()?).ok()
}

fn has_all(proper: &Proper, named: &[Batch]) -> bool {
    for value in named {
        if !proper.has(value) {
            return false;
        }
    }
    true
}

// Whether exactly these values are proper by name, and all others if `all` is true.
fn are_proper(alloc: Global, proper: &Proper, all: bool, explicit: &[&[u8]]) -> Option<bool> {
    let other = value(alloc, b"z").ok()?;
    let named = values(alloc, explicit).ok()?;
    Some(
        has_all(proper, &named)
            && proper.all() == all
            && proper.has(&other) == all
            && proper.explicit() == named.as_slice(),
    )
}

fn absorb(alloc: Global, proper: &mut Proper, reports: &[ReportFields<'_>]) -> Option<()> {
    let read = read(alloc, &four()?, reports)?;
    proper.absorb(ReplicaId::new(0), &read).ok()
}

// A report: its signer, whether it reports that every value is proper, its initial value, and the values that it lists.
type Row<'a> = (u8, bool, &'a [u8], &'a [&'a [u8]]);

// A phase: its name, what was read in it, and what is proper afterwards.
struct PhaseCase<'a> {
    name: &'a str,
    own: &'a [u8],
    read: &'a [Row<'a>],
    all: bool,
    explicit: &'a [&'a [u8]],
}

fn reports_of<'a>(alloc: Global, rows: &'a [Row<'a>]) -> Option<Vec<ReportFields<'a>>> {
    let mut reports = Vec::with_capacity(alloc, rows.len()).ok()?;
    for (signer, all, initial, proper) in rows {
        let row = ReportFields {
            all: *all,
            ..naming(*signer, initial, proper)
        };
        reports.push(row).ok()?;
    }
    Some(reports)
}

// Whether exactly the values of the case are proper after its phase.
fn makes_proper(alloc: Global, case: &PhaseCase<'_>) -> Option<bool> {
    let reports = reports_of(alloc, case.read)?;
    let mut proper = opened(alloc, case.own)?;
    absorb(alloc, &mut proper, &reports)?;
    are_proper(alloc, &proper, case.all, case.explicit)
}

const FOUR: [&[u8]; 4] = [b"a", b"b", b"c", b"d"];

const CASES: [PhaseCase<'static>; 7] = [
    PhaseCase {
        name: "two others name a value",
        own: b"x",
        read: &[
            (1, false, b"x", &[b"x"]),
            (2, false, b"y", &[b"y"]),
            (3, false, b"y", &[b"y"]),
        ],
        all: false,
        explicit: &[b"x", b"y"],
    },
    PhaseCase {
        name: "one other names too few",
        own: b"a",
        read: &[(1, false, b"a", &[b"a"]), (2, false, b"b", &[b"b"])],
        all: false,
        explicit: &[b"a"],
    },
    PhaseCase {
        name: "the least three others are kept",
        own: b"m",
        read: &[(1, false, b"m", &FOUR), (2, false, b"m", &FOUR)],
        all: false,
        explicit: &[b"a", b"b", b"c", b"m"],
    },
    PhaseCase {
        name: "split initial values",
        own: b"a",
        read: &[(1, false, b"b", &[b"b"]), (2, false, b"c", &[b"c"])],
        all: true,
        explicit: &[b"a"],
    },
    PhaseCase {
        name: "two others report that every value is proper",
        own: b"a",
        read: &[(1, true, b"a", &[b"a"]), (2, true, b"a", &[b"a"])],
        all: true,
        explicit: &[b"a"],
    },
    PhaseCase {
        name: "only the own report lists c, so c isn't proper by name",
        own: b"a",
        read: &[
            (0, false, b"a", &[b"c"]),
            (1, true, b"a", &[b"a"]),
            (2, true, b"a", &[b"a"]),
        ],
        all: true,
        explicit: &[b"a"],
    },
    PhaseCase {
        name: "another replica lists c, and others report that every value is proper",
        own: b"a",
        read: &[(1, true, b"a", &[b"c"]), (2, true, b"a", &[b"a"])],
        all: true,
        explicit: &[b"a", b"c"],
    },
];

#[test]
fn reports_make_values_proper(rt: HostRuntime) {
    for case in &CASES {
        assert!(rt;
            makes_proper(rt.alloc(), case) == Some(true),
            "{}",
            case.name
        );
    }
}

// Whether this is the own value, and the set can be copied.
fn has_own(alloc: Global, proper: &Proper, own: &[u8]) -> bool {
    match value(alloc, own) {
        Ok(value) => *proper.own() == value && proper.copy().is_ok(),
        Err(_) => false,
    }
}

// Whether only the own value is proper at first, and the set can be copied.
fn begins_with(alloc: Global, own: &[u8]) -> bool {
    match opened(alloc, own) {
        Some(proper) => {
            are_proper(alloc, &proper, false, &[own]) == Some(true) && has_own(alloc, &proper, own)
        }
        None => false,
    }
}

#[test]
fn the_own_value_is_proper_at_first(rt: HostRuntime) {
    assert!(rt; begins_with(rt.alloc(), b"a"));
}
