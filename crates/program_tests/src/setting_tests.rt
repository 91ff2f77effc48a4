//! The settings that the words of a command line give. `tests/end_to_end.sh` tests those of `abft sign`, and the words
//! that are refused.
use crate::setting_lines::seed_alone;
use app_kinds::AnyKind;
use cluster_setup::Settings;
use command_line::settings;
use ledger_model::{AppKind, Version};
use std::alloc::Global;

/// The settings that the words give, if they give any. It has no `ensures`, which keeps clap out of the tests' proofs.
fn set(alloc: Global, words: &[&str]) -> Option<Settings> {
    settings::<AnyKind>(alloc, words, seed_alone(None)).ok()
}

/// The application of the cluster of `abft sign`.
fn kind_in(settings: &Settings) -> Option<AppKind> {
    match settings {
        Settings::Sign(sign) => Some(sign.cluster.config.kind),
        _ => None,
    }
}

/// The application with this number or name, if there is one.
fn kind_of(alloc: Global, word: &str) -> Option<AppKind> {
    let settings = set(alloc, &["abft", "sign", "ack", "--kind", word])?;
    kind_in(&settings)
}

#[test]
fn a_kind_is_chosen_by_its_number_or_its_name(rt: HostRuntime) {
    for &(word, kind) in &[
        ("1", Some(AppKind::KvStore)),
        ("02", Some(AppKind::Counter)),
        ("3", Some(AppKind::Purse)),
        ("kvstore", Some(AppKind::KvStore)),
        ("counter", Some(AppKind::Counter)),
        ("purse", Some(AppKind::Purse)),
        ("0", None),
        ("4", None),
        ("own", None),
        ("Purse", None),
    ] {
        assert!(rt; kind_of(rt.alloc(), word) == kind, "at '{word}'");
    }
}

/// The version of the frames of `abft sign`.
fn frames_in(settings: &Settings) -> Option<Version> {
    match settings {
        Settings::Sign(sign) => Some(sign.cluster.config.frames),
        _ => None,
    }
}

/// The version with this number, if there is one.
fn frames_of(alloc: Global, word: &str) -> Option<Version> {
    let settings = set(alloc, &["abft", "sign", "ack", "--frames", word])?;
    frames_in(&settings)
}

#[test]
fn frames_have_version_1_or_2(rt: HostRuntime) {
    for &(word, version) in &[
        ("1", Some(Version::One)),
        ("2", Some(Version::Two)),
        ("0", None),
        ("3", None),
    ] {
        assert!(rt; frames_of(rt.alloc(), word) == version, "at '{word}'");
    }
}

/// Whether these are the settings of `abft deliver` with the words below.
fn is_deliver_set(settings: &Settings) -> bool {
    let Settings::Deliver(deliver) = settings else {
        return false;
    };
    deliver.cluster.config.replicas == 4
        && deliver.cluster.params.leaves() == 1024
        && deliver.cluster.seed == [0; 32]
        && deliver.cluster.config.frames == Version::Two
        && deliver.replica.number() == 2
        && deliver.height.number() == 4
        && deliver.rounds == 0
        && deliver.value.as_bytes() == b"a=1".as_slice()
}

#[test]
fn the_words_of_deliver_set_each_option(rt: HostRuntime) {
    let words = [
        "abft",
        "deliver",
        "--replica",
        "2",
        "--height=4",
        "--rounds",
        "0",
        "--w",
        "8",
        "--tree",
        "10",
        "--frames=2",
    ];
    let settings = set(rt.alloc(), &words).expect(&rt, "the words are a command line");
    assert!(rt; is_deliver_set(&settings));
}

/// Thirty-two bytes 1, as a word of the command line.
const ONES: &str = "--seed=0101010101010101010101010101010101010101010101010101010101010101";

/// Whether these are the settings of `abft simulate` with the words below.
fn is_simulate_set(settings: &Settings) -> bool {
    match settings {
        Settings::Simulate(simulate) => simulate.seed == [1; 32] && simulate.histories,
        _ => false,
    }
}

#[test]
fn the_words_of_simulate_set_each_option(rt: HostRuntime) {
    let words = ["abft", "simulate", ONES, "--histories"];
    let settings = set(rt.alloc(), &words).expect(&rt, "the words are a command line");
    assert!(rt; is_simulate_set(&settings));
}
