//! The seed of all keys: in the words, in a file that they name, or drawn; the file of a cluster; and what of a file is a seed.
use crate::setting_lines::is_set_with;
use app_kinds::AnyKind;
use command_line::{KeySource, key_source, seed_of_bytes};
use std::alloc::{AllocError, Global};

/// What is wrong with the words of a line that name no file with a seed.
const NO_FILE: &str =
    "error: --seed-file is a file of 64 hexadecimal digits, or of 32 bytes, not 'k'";

#[test]
fn a_seed_that_is_given_is_taken_where_it_is_asked_for(rt: HostRuntime) {
    for &(words, given, line) in &[
        (
            "abft audit --seed-file k",
            Some([9; 32]),
            "4 1 KvStore W4 32 One 9, no receipt",
        ),
        ("abft audit --seed-file k", None, NO_FILE),
        (
            "abft audit --seed-file -",
            Some([9; 32]),
            "error: --seed-file is a file of 64 hexadecimal digits, or of 32 bytes, not '-'",
        ),
        (
            "abft audit --seed-file k --seed 00",
            Some([9; 32]),
            "error: the seed comes from --seed or from --seed-file, not from both",
        ),
        (
            "abft audit",
            Some([9; 32]),
            "4 1 KvStore W4 32 One 0, no receipt",
        ),
        (
            "abft audit --seed random",
            Some([9; 32]),
            "error: --seed is 64 hexadecimal digits, not 'random'",
        ),
        (
            "abft cluster --seed random",
            Some([7; 32]),
            "4 1 KvStore W4 32 One 7 [97, 61, 49] 40 200 Info false None",
        ),
        (
            "abft serve --seed=random",
            Some([7; 32]),
            "4 1 KvStore W4 32 One 7 [97, 61, 49] 40 200 Info false None, 0 None 1 32768",
        ),
        (
            "abft cluster --seed-file k",
            Some([7; 32]),
            "4 1 KvStore W4 32 One 7 [97, 61, 49] 40 200 Info false None",
        ),
        (
            "abft serve --seed 00",
            Some([7; 32]),
            "error: --seed is 64 hexadecimal digits or random, not '00'",
        ),
    ] {
        assert!(rt; is_set_with(rt.alloc(), words, given, line), "{words}");
    }
}

/// Whether the seed of these words comes from here.
fn comes_from(alloc: Global, words: &[&str], source: KeySource<'_>) -> bool {
    match key_source::<AnyKind>(alloc, words) {
        Ok(found) => found == source,
        Err(_) => false,
    }
}

/// Whether the seed of the words of a line comes from here.
fn is_from(alloc: Global, line: &str, source: KeySource<'_>) -> bool {
    let words: Result<Vec<&str>, AllocError> = line.split(' ').collect(alloc);
    match words {
        Ok(words) => comes_from(alloc, &words, source),
        Err(_) => false,
    }
}

#[test]
fn the_words_say_where_the_seed_comes_from(rt: HostRuntime) {
    for &(line, source) in &[
        ("abft cluster", KeySource::Words),
        ("abft cluster --seed random", KeySource::Random),
        ("abft serve --seed random", KeySource::Random),
        ("abft serve --seed-file k", KeySource::SeedFile("k")),
        ("abft sign ack --seed-file=k", KeySource::SeedFile("k")),
        ("abft simulate --seed-file k", KeySource::SeedFile("k")),
        ("abft draw --seed-file k", KeySource::SeedFile("k")),
        ("abft keys --seed-file k", KeySource::SeedFile("k")),
        (
            "abft keys --seed random --write-seed k",
            KeySource::NewFile("k"),
        ),
        ("abft audit --cluster k", KeySource::ClusterFile("k")),
        (
            "abft draw --cluster k --last 9",
            KeySource::ClusterFile("k"),
        ),
        ("abft audit --cluster k --n 99", KeySource::ClusterFile("k")),
        ("abft keys --seed random", KeySource::Words),
        ("abft keys --write-seed k", KeySource::Words),
        ("abft sign ack --cluster k", KeySource::Words),
        ("abft audit --seed random", KeySource::Words),
        ("abft audit --seed-file -", KeySource::Words),
        ("abft audit --seed-file k --seed 00", KeySource::Words),
        ("abft audit --seed-file k --n 99", KeySource::Words),
        ("abft vote --seed-file k", KeySource::Words),
        ("abft --help", KeySource::Words),
    ] {
        assert!(rt; is_from(rt.alloc(), line, source), "{line}");
    }
}

/// The last byte of the seed in a file with these bytes, if there is one.
fn last_in(bytes: &[u8]) -> Option<u8> {
    let seed = seed_of_bytes(bytes)?;
    Some(seed[31])
}

#[test]
fn a_file_has_digits_or_bytes(rt: HostRuntime) {
    for &(bytes, last) in &[
        (
            b"000000000000000000000000000000000000000000000000000000000000002a".as_slice(),
            Some(42),
        ),
        (
            b"00000000000000000000000000000000000000000000000000000000000000fE\n".as_slice(),
            Some(254),
        ),
        (b"0123456789abcdef0123456789abcde\n".as_slice(), Some(10)),
        (b"0123456789abcdef0123456789abcde".as_slice(), None),
        (b"".as_slice(), None),
        (b"\n".as_slice(), None),
        (
            b"000000000000000000000000000000000000000000000000000000000000002a\n\n".as_slice(),
            None,
        ),
        (
            b"000000000000000000000000000000000000000000000000000000000000002a\r\n".as_slice(),
            None,
        ),
        (
            b"000000000000000000000000000000000000000000000000000000000000002\n".as_slice(),
            None,
        ),
        (
            b"00000000000000000000000000000000000000000000000000000000000000zz".as_slice(),
            None,
        ),
    ] {
        assert!(rt; last_in(bytes) == last, "{bytes:?}");
    }
}
