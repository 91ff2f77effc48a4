//! Each kind of command line in a scenario.
use crate::texts::{seen, seen_step};
use ledger_model::{Tx, Version};
use scenario_texts::{Command, Scenario, Towards};
use std::alloc::Global;

/// The name of a command with bytes, its number, and whether these are the bytes.
fn bytes_of(step: &Command, spelled: &[u8]) -> (&'static str, u32, bool) {
    match step {
        Command::Submit { replica, bytes } => ("submit", *replica, bytes.as_slice() == spelled),
        Command::Inject { to, bytes } => ("inject", *to, bytes.as_slice() == spelled),
        Command::Query { replica, key } => ("query", *replica, key.as_bytes() == spelled),
        _ => ("", 0, false),
    }
}

fn bytes_in(alloc: Global, line: &[u8], spelled: &[u8]) -> Option<(&'static str, u32, bool)> {
    seen_step(alloc, line, |step| bytes_of(step, spelled))
}

/// Lines of commands with bytes, and the name, the number and the bytes of each.
const BYTES: [(&[u8], &str, u32, &[u8]); 7] = [
    (b"submit 0 a=1", "submit", 0, b"a=1"),
    (b"submit 300 \\20\\ff\\5b", "submit", 300, b" \xff["),
    (b"submit 0", "submit", 0, b""),
    (b"inject 2 00ff0a", "inject", 2, b"\x00\xff\n"),
    (b"inject 2", "inject", 2, b""),
    (b"query 3 a\\2c", "query", 3, b"a,"),
    (b"query 3", "query", 3, b""),
];

#[test]
fn bytes_of_submit_inject_and_query(rt: HostRuntime) {
    for (line, name, number, spelled) in &BYTES {
        let found = bytes_in(rt.alloc(), line, spelled);
        assert!(rt; found == Some((*name, *number, true)), "{name} {number}");
    }
}

/// The name of another command, and its numbers, 0 for those that it doesn't have.
fn numbers_of(step: &Command) -> (&'static str, [u32; 3]) {
    match step {
        Command::Propose { replica, height } => ("propose", [*replica, height.number(), 0]),
        Command::Pass { from, index, to } => ("pass", [*from, *index, *to]),
        Command::End { replica } => ("end", [*replica, 0, 0]),
        Command::Execute { replica } => ("execute", [*replica, 0, 0]),
        Command::Info { replica } => ("info", [*replica, 0, 0]),
        Command::Silent => ("silent", [0; 3]),
        Command::Round => ("round", [0; 3]),
        _ => ("", [0; 3]),
    }
}

#[test]
fn numbers_of_other_steps(rt: HostRuntime) {
    for (line, wanted) in [
        (
            b"propose 0 4294967295".as_slice(),
            ("propose", [0, 4_294_967_295, 0]),
        ),
        (b"pass 0 12 3", ("pass", [0, 12, 3])),
        (b"end 0", ("end", [0, 0, 0])),
        (b"execute 7", ("execute", [7, 0, 0])),
        (b"info 10", ("info", [10, 0, 0])),
        (b"silent", ("silent", [0, 0, 0])),
        (b"round", ("round", [0, 0, 0])),
    ] {
        assert!(rt;
            seen_step(rt.alloc(), line, numbers_of) == Some(wanted),
            "{}",
            wanted.0
        );
    }
}

/// Whether these are transactions of these bytes.
fn are_spelled(transactions: &[Tx], spelled: &[&[u8]]) -> bool {
    for (transaction, bytes) in transactions.iter().zip(spelled) {
        if transaction.as_bytes() != *bytes {
            return false;
        }
    }
    transactions.len() == spelled.len()
}

/// The name of a lie, its height and its phase, and whether it is of replica 1, with these transactions and to this addressee.
fn lie_of(step: &Command, spelled: &[&[u8]], to: Towards) -> (&'static str, (u32, u32), bool) {
    let (name, lie) = match step {
        Command::LieReport(lie) => ("report", lie),
        Command::LieLock(lie) => ("lock", lie),
        Command::LieAck(lie) => ("ack", lie),
        _ => return ("", (0, 0), false),
    };
    let is_same = lie.liar.number() == 1
        && lie.to == to
        && are_spelled(lie.batch.transactions(), spelled);
    (name, (lie.height.number(), lie.phase.number()), is_same)
}

fn lie_in(
    alloc: Global,
    line: &[u8],
    spelled: &[&[u8]],
    to: Towards,
) -> Option<(&'static str, (u32, u32), bool)> {
    seen_step(alloc, line, |step| lie_of(step, spelled, to))
}

#[test]
fn lies(rt: HostRuntime) {
    let alloc = rt.alloc();
    let found = lie_in(
        alloc,
        b"lie-report 1 2 3 [a=1,b\\0a] all",
        &[b"a=1", b"b\n"],
        Towards::All,
    );
    assert!(rt; found == Some(("report", (2, 3), true)));
    let found = lie_in(alloc, b"lie-lock 1 1 1 [x] 3", &[b"x"], Towards::One(3));
    assert!(rt; found == Some(("lock", (1, 1), true)));
    let found = lie_in(alloc, b"lie-ack 1 4 5 [] 0", &[], Towards::One(0));
    assert!(rt; found == Some(("ack", (4, 5), true)));
}

/// The version of the lie that is the only command.
fn version_of_lie(scenario: &Scenario) -> Option<Version> {
    match scenario.commands.as_slice() {
        [Command::LieAck(lie)] => Some(lie.version),
        _ => None,
    }
}

#[test]
fn lies_have_the_version_of_the_frames(rt: HostRuntime) {
    for (text, wanted) in [
        (
            b"config 4 1 1\nliar 1\nlie-ack 1 1 1 [x] all\n".as_slice(),
            Version::One,
        ),
        (
            b"config 4 1 1\nframes 2\nliar 1\nlie-ack 1 1 1 [x] all\n",
            Version::Two,
        ),
    ] {
        let found = seen(rt.alloc(), text, version_of_lie);
        assert!(rt; found == Some(Some(wanted)), "{wanted:?}");
    }
}
