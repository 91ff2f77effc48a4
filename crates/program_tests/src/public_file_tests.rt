//! A cluster's public file: that `abft keys` prints it, and that `abft audit` and `abft draw` take the cluster that is read from it.
use crate::fault_tests::outcome_of;
use crate::key_tests::PUBLIC_KEYS;
use crate::setting_lines::{is_set_by, is_set_given, is_set_with};
use crate::streams::Sink;
use cluster_files::read;
use command_line::GivenKeys;
use program::Outcome;
use std::alloc::{AllocError, Global};
use std::random::RandomSource;

/// The public file of four replicas of this application, of which one may lie, with the keys of the seed of 32 zeros.
fn file(alloc: Global, kind: &str) -> Result<String, AllocError> {
    let [first, second, third, fourth] = PUBLIC_KEYS;
    format!(in alloc;
        "bits = 4\nfaults = 1\nframes = 1\nkeys = [\n    \"{first}\",\n    \"{second}\",\n    \"{third}\",\n    \"{fourth}\",\n]\nkind = \"{kind}\"\nlevels = 5\nreplicas = 4\n"
    )
}

/// Whether the program prints this text on these words, and nothing else.
fn prints<S: RandomSource>(source: &S, alloc: Global, words: &[&str], text: &str) -> bool {
    let mut output = Sink::new(alloc, usize::MAX);
    let mut faults = Sink::new(alloc, 99);
    let outcome = outcome_of(source, alloc, words, &mut output, &mut faults);
    matches!(outcome, Outcome::Ended(0))
        && output.text.as_slice() == text.as_bytes()
        && faults.text.is_empty()
}

#[test]
fn keys_prints_the_public_file(rt: HostRuntime) {
    let alloc = rt.alloc();
    let Ok(text) = file(alloc, "kvstore") else {
        assert!(rt; false);
        return;
    };
    assert!(rt; prints(&rt, alloc, &["abft", "keys"], text.as_str()));
}

/// Whether the words of a line give these settings, or have this fault, if the cluster of four replicas of this application is given.
fn sets(alloc: Global, line: &str, kind: &str, text: &str) -> bool {
    let Ok(file) = file(alloc, kind) else {
        return false;
    };
    let Ok(cluster) = read(alloc, file.as_str()) else {
        return false;
    };
    let given = GivenKeys {
        seed: None,
        cluster: Some(cluster),
    };
    is_set_given(alloc, line, given, text)
}

/// What is wrong with the words of a line whose file is none of a cluster of the program.
const NO_CLUSTER: &str =
    "error: --cluster is the public file of a cluster that runs an application of this program, not 'k'";

#[test]
fn a_cluster_that_is_given_is_taken_where_it_is_asked_for(rt: HostRuntime) {
    for &(line, kind, text) in &[
        (
            "abft audit --cluster k",
            "purse",
            "public 4 1 Purse W4 32 One, no receipt",
        ),
        (
            "abft audit --cluster k --receipt 0:0:a=1",
            "counter",
            "public 4 1 Counter W4 32 One, 0 0 [97, 61, 49]",
        ),
        (
            "abft draw --last 9 --cluster=k",
            "kvstore",
            "public 4 1 KvStore W4 32 One",
        ),
        ("abft draw --cluster k", "own", NO_CLUSTER),
        (
            "abft audit --cluster k --tree 5",
            "kvstore",
            "error: --tree is not taken beside --cluster, whose file stands for it",
        ),
        (
            "abft draw --seed-file s --cluster k",
            "kvstore",
            "error: --seed-file is not taken beside --cluster, whose file stands for it",
        ),
        ("abft draw", "purse", "4 1 KvStore W4 32 One 0"),
        ("abft keys --n 7", "purse", "7 1 KvStore W4 32 One 0"),
    ] {
        assert!(rt; sets(rt.alloc(), line, kind, text), "{line}");
    }
}

#[test]
fn a_file_that_was_not_read_is_a_fault(rt: HostRuntime) {
    for line in ["abft audit --cluster k", "abft draw --cluster k"] {
        assert!(rt; is_set_by(rt.alloc(), line, NO_CLUSTER), "{line}");
    }
}

/// What is wrong with the words of a line by which a new seed would be lost, or none would be new.
const UNWRITTEN: &str =
    "error: --seed random and --write-seed go together: the new seed is kept in that file, or nowhere";

#[test]
fn a_new_seed_is_kept(rt: HostRuntime) {
    for (line, text) in [
        (
            "abft keys --seed random --write-seed k",
            "4 1 KvStore W4 32 One 6",
        ),
        ("abft keys --seed random", UNWRITTEN),
        ("abft keys --write-seed k", UNWRITTEN),
        ("abft keys --seed-file s --write-seed k", UNWRITTEN),
        (
            "abft keys --seed-file s --seed random --write-seed k",
            "error: the seed comes from --seed or from --seed-file, not from both",
        ),
        (
            "abft keys --seed 00",
            "error: --seed is 64 hexadecimal digits or random, not '00'",
        ),
    ] {
        assert!(rt;
            is_set_with(rt.alloc(), line, Some([6; 32]), text),
            "{line}"
        );
    }
}
