//! The settings that the words of `abft audit` give, and the words that spell no receipt.
use crate::setting_lines::{is_set_by, seed_alone};
use app_kinds::AnyKind;
use command_line::{UsageFault, settings};
use std::alloc::Global;

#[test]
fn the_words_of_audit_set_each_option(rt: HostRuntime) {
    for &(words, line) in &[
        ("abft audit", "4 1 KvStore W4 32 One 0, no receipt"),
        (
            "abft audit --n 7 --t 2 --kind 3 --w 8 --tree 10 --frames 2",
            "7 2 Purse W8 1024 Two 0, no receipt",
        ),
        (
            "abft audit --receipt 0:0:a=1",
            "4 1 KvStore W4 32 One 0, 0 0 [97, 61, 49]",
        ),
        (
            "abft audit --receipt=12:4294967295:a:b=1",
            "4 1 KvStore W4 32 One 0, 12 4294967295 [97, 58, 98, 61, 49]",
        ),
        (
            "abft audit --receipt 255:10:\\00",
            "4 1 KvStore W4 32 One 0, 255 10 [0]",
        ),
        (
            "abft audit --receipt 0:0",
            "error: --receipt is R:I:TX, such as 0:0:a=1, with a transaction of 1 to 64 bytes, not '0:0'",
        ),
        (
            "abft audit old.bin",
            "error: the histories come on standard input: abft audit <old.bin",
        ),
    ] {
        assert!(rt; is_set_by(rt.alloc(), words, line), "{words}");
    }
}

/// Whether the word is refused as no receipt.
fn is_no_receipt(alloc: Global, word: &str) -> bool {
    match settings::<AnyKind>(
        alloc,
        &["abft", "audit", "--receipt", word],
        seed_alone(None),
    ) {
        Err(UsageFault::Receipt(told)) => told == word,
        _ => false,
    }
}

/// A word for a transaction of 65 bytes.
const TOO_LONG: &str = "0:0:aaaaaaaaaaaaaaaaaaaaaaaaaaaaaaaaaaaaaaaaaaaaaaaaaaaaaaaaaaaaaaaaa";

#[test]
fn a_word_that_spells_no_receipt_is_refused(rt: HostRuntime) {
    for &word in &[
        "256:0:a",
        "0:4294967296:a",
        "00:0:a",
        "0:00:a",
        "0:0:",
        "0:0",
        "0",
        "",
        ":0:a",
        "x:0:a",
        "0:+1:a",
        " 0:0:a",
        TOO_LONG,
        "0:0:\\0",
        "0:0:a b",
    ] {
        assert!(rt; is_no_receipt(rt.alloc(), word), "'{word}'");
    }
}
