//! The lines before the commands, and how a fault is shown.
use crate::texts::seen;
use ledger_model::{AppKind, Version};
use lm_ots::{TreeHeight, Width};
use scenario_texts::{Scenario, TextFault};
use std::alloc::Global;

/// N, t, the width, the height and the number of liars of a scenario of purses.
fn purses(scenario: &Scenario) -> Option<(u8, u8, u8, TreeHeight, usize)> {
    let setup = &scenario.setup;
    if setup.config.kind != AppKind::Purse {
        return None;
    }
    let params = setup.params();
    Some((
        setup.config.replicas,
        setup.config.faults,
        params.width.bits(),
        params.height,
        setup.liars.len(),
    ))
}

/// Whether the liars of a scenario are these, in order.
fn are_liars(scenario: &Scenario, wanted: &[u8]) -> bool {
    let liars = scenario.setup.liars.as_slice();
    for (liar, number) in liars.iter().zip(wanted) {
        if liar.number() != *number {
            return false;
        }
    }
    liars.len() == wanted.len()
}

/// Whether the liars of the text are these, in order.
fn has_liars(alloc: Global, text: &[u8], wanted: &[u8]) -> Option<bool> {
    seen(alloc, text, |scenario| are_liars(scenario, wanted))
}

#[test]
fn clusters_and_keys(rt: HostRuntime) {
    let alloc = rt.alloc();
    for (text, wanted) in [
        (
            b"config 13 4 3\nliar 12\nliar 0\nliar 3\nliar 7\n".as_slice(),
            (13, 4, 4, TreeHeight::H5, 4),
        ),
        (b"config 4 1 3\nkeys 4 10\n", (4, 1, 4, TreeHeight::H10, 0)),
        (
            b"config 4 1 3\nkeys 8 5\nliar 2\n",
            (4, 1, 8, TreeHeight::H5, 1),
        ),
    ] {
        assert!(rt;
            seen(alloc, text, purses) == Some(Some(wanted)),
            "{wanted:?}"
        );
    }
    let text = b"config 13 4 3\nliar 12\nliar 0\nliar 3\nliar 7\nsilent\n";
    assert!(rt; has_liars(alloc, text, &[12, 0, 3, 7]) == Some(true));
    assert!(rt; Width::W8.bits() == 8);
}

/// The version of the frames of the text's cluster.
fn version_of(alloc: Global, text: &[u8]) -> Option<Version> {
    seen(alloc, text, |scenario| scenario.setup.config.frames)
}

#[test]
fn versions(rt: HostRuntime) {
    let alloc = rt.alloc();
    for (text, wanted) in [
        (b"config 4 1 1\nkeys 4 5\nliar 1\n".as_slice(), Version::One),
        (b"config 4 1 1\nframes 2\n", Version::Two),
        (
            b"config 4 1 1\nkeys 4 5\nframes 2\nliar 1\nsilent\n",
            Version::Two,
        ),
    ] {
        assert!(rt; version_of(alloc, text) == Some(wanted), "{wanted:?}");
    }
    assert!(rt; version_of(alloc, b"config 4 1 1\nframes 1\n").is_none());
    assert!(rt; version_of(alloc, b"config 4 1 1\nframes 2\nkeys 4 5\n").is_none());
}

#[test]
fn faults_are_shown(rt: HostRuntime) {
    for (fault, wanted) in [
        (TextFault::BadLine(10_001), "line 10001 bad"),
        (TextFault::NoMemory, "out of memory"),
    ] {
        let shown = format!(in rt.alloc(); "{fault}").expect(&rt, "memory");
        assert!(rt; shown.as_str() == wanted, "at '{wanted}'");
    }
}
