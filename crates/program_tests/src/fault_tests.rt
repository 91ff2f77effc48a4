//! Faults of the program: each has a status, and a text that is written with one write. What is printed is flushed.
use crate::setting_lines::seed_alone;
use crate::streams::{Sink, Source};
use app_kinds::AnyKind;
use program::{Outcome, refuse_words, run};
use std::alloc::Global;
use std::io::{self, ErrorKind};
use std::random::RandomSource;

/// The outcome of the program on these words, if reading fails at once.
pub(crate) fn outcome_of<S: RandomSource>(
    source: &S,
    alloc: Global,
    words: &[&str],
    output: &mut Sink,
    faults: &mut Sink,
) -> Outcome {
    run::<AnyKind, _, _, _, _>(
        source,
        alloc,
        words,
        seed_alone(None),
        &mut Source::new(b"", true),
        output,
        faults,
    )
}

/// Whether the program ends with this status, and writes why with one write.
fn ends_at_once<S: RandomSource>(
    source: &S,
    alloc: Global,
    subcommand: &str,
    status: u8,
    faults: &mut Sink,
) -> bool {
    let mut output = Sink::new(alloc, 99);
    let outcome = outcome_of(source, alloc, &["abft", subcommand], &mut output, faults);
    matches!(outcome, Outcome::Ended(found) if found == status) && faults.writes == 1
}

#[test]
fn each_fault_is_one_write(rt: HostRuntime) {
    let alloc = rt.alloc();
    for subcommand in ["deliver", "simulate"] {
        let mut faults = Sink::new(alloc, 99);
        let is_printed = ends_at_once(&rt, alloc, subcommand, 3, &mut faults)
            && faults.text.as_slice() == b"error: standard input: timed out\n".as_slice();
        assert!(rt; is_printed, "at {subcommand}");
    }
}

#[test]
fn bad_usage_is_printed_at_once(rt: HostRuntime) {
    let alloc = rt.alloc();
    let mut faults = Sink::new(alloc, usize::MAX);
    let is_printed = ends_at_once(&rt, alloc, "vote", 2, &mut faults);
    assert!(rt; is_printed && faults.text.ends_with(b"\n"));
}

/// Whether the program ends with status 0 on these words, writes something, and flushes it once.
fn prints<S: RandomSource>(source: &S, alloc: Global, words: &[&str]) -> bool {
    let mut output = Sink::new(alloc, usize::MAX);
    let mut faults = Sink::new(alloc, 99);
    let outcome = outcome_of(source, alloc, words, &mut output, &mut faults);
    matches!(outcome, Outcome::Ended(0)) && output.flushes == 1 && !output.text.is_empty()
}

#[test]
fn what_is_printed_is_flushed(rt: HostRuntime) {
    let alloc = rt.alloc();
    assert!(rt; prints(&rt, alloc, &["abft", "--version"]));
    assert!(rt; prints(&rt, alloc, &["abft", "sign", "report"]));
}

/// Whether the program refuses words that this error keeps it from reading, with this status and text.
fn refuses(alloc: Global, kind: ErrorKind, status: u8, text: &[u8]) -> bool {
    let mut faults = Vec::new(alloc);
    refuse_words(alloc, io::Error::from(kind), &mut faults) == status && faults.as_slice() == text
}

#[test]
fn words_that_cannot_be_read_are_refused(rt: HostRuntime) {
    let alloc = rt.alloc();
    let text = b"error: a word of the command line is not UTF-8\n";
    assert!(rt; refuses(alloc, ErrorKind::InvalidData, 2, text));
    assert!(rt; refuses(alloc, ErrorKind::OutOfMemory, 3, b"error: out of memory\n"));
}
