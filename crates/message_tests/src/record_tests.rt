//! Ledgers, reports, and the lists in statements and histories.

use ledger_model::{
    Batch, Batches, Codes, Entries, Entry, Event, Ledger, NothingDecided, Reply, Signature,
};
use std::alloc::Global;
use test_support::{ReportFields, naming, report, value, values};

// Whether these are the batches of one transaction each.
fn are_values(alloc: Global, batches: &[Batch], wanted: &[&[u8]]) -> Option<bool> {
    let wanted = values(alloc, wanted).ok()?;
    Some(batches == wanted.as_slice())
}

fn append(alloc: Global, ledger: &mut Ledger, bytes: &[u8]) -> Option<()> {
    ledger.append(value(alloc, bytes).ok()?).ok()
}

#[test]
fn a_ledger_grows(rt: HostRuntime) {
    let mut ledger = Ledger::new(rt.alloc());
    assert!(rt; ledger.blocks().is_empty());
    assert!(rt; append(rt.alloc(), &mut ledger, b"a=1").is_some());
    assert!(rt; append(rt.alloc(), &mut ledger, b"b=2").is_some());
    assert!(rt; are_values(rt.alloc(), ledger.blocks(), &[b"a=1", b"b=2"]) == Some(true));
}

// Whether a report with these fields names and finds a value.
fn found_in(alloc: Global, fields: &ReportFields<'_>, value: &Batch) -> Option<(bool, bool)> {
    let report = report(alloc, fields).ok()?;
    Some((report.names(value), report.finds(value)))
}

// Whether a report, with ALL or not, that names these values and lists these locks names and finds `a=1`.
fn found(alloc: Global, all: bool, proper: &[&[u8]], locked: &[&[u8]]) -> Option<(bool, bool)> {
    let fields = ReportFields {
        all,
        locked,
        ..naming(0, b"a=1", proper)
    };
    let value = value(alloc, b"a=1").ok()?;
    found_in(alloc, &fields, &value)
}

// Reports with ALL or not, the values that they name and list as locked, and whether they name and find `a=1`.
const REPORTS: [(bool, &[&[u8]], &[&[u8]], (bool, bool)); 6] = [
    (false, &[b"a=1"], &[], (true, true)),
    (false, &[b"b=2"], &[], (false, false)),
    (true, &[b"b=2"], &[], (true, true)),
    (false, &[b"a=1"], &[b"a=1"], (true, true)),
    (false, &[b"a=1"], &[b"a=1", b"b=2"], (true, false)),
    (false, &[b"b=2"], &[b"a=1"], (false, false)),
];

#[test]
fn what_reports_name_and_find(rt: HostRuntime) {
    for (index, &(all, proper, locked, wanted)) in REPORTS.iter().enumerate() {
        assert!(rt;
            found(rt.alloc(), all, proper, locked) == Some(wanted),
            "report {index}"
        );
    }
}

fn batches_are_kept(alloc: Global) -> Option<bool> {
    let list = Batches::new(values(alloc, &[b"a=1", b"b=2"]).ok()?);
    are_values(alloc, list.into_vec().as_slice(), &[b"a=1", b"b=2"])
}

fn codes_are_kept(alloc: Global) -> Option<bool> {
    let codes = Codes::new([0, 2].to_vec(alloc).ok()?);
    Some(codes.as_slice() == [0, 2].as_slice())
}

fn entries_are_kept(alloc: Global) -> Option<bool> {
    let mut entries = Vec::new(alloc);
    entries
        .push(Entry {
            event: Event::Execute,
            reply: Reply::Executed(Err(NothingDecided)),
        })
        .ok()?;
    Some(Entries::new(entries).as_slice().len() == 1)
}

fn signature_is_copied(alloc: Global) -> Option<bool> {
    let copied = Signature::new(Vec::from_slice(alloc, &[5, 6]).ok()?)
        .copy()
        .ok()?;
    Some(copied.as_bytes() == [5, 6].as_slice())
}

#[test]
fn lists_and_signatures_are_kept(rt: HostRuntime) {
    assert!(rt; batches_are_kept(rt.alloc()) == Some(true));
    assert!(rt; codes_are_kept(rt.alloc()) == Some(true));
    assert!(rt; entries_are_kept(rt.alloc()) == Some(true));
    assert!(rt; signature_is_copied(rt.alloc()) == Some(true));
}
