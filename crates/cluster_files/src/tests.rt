//! Files of clusters: one that is read and written again, other spellings of it, and each fault with its sentence.
use crate::{read, text_of};
use cluster_setup::PublicCluster;
use ledger_model::{AppKind, ReplicaId, Version};
use lm_ots::{TreeHeight, Width};
use std::alloc::Global;

/// The file of four replicas. Their keys are those of the seed of 32 zeros with W4 and H5, as another implementation of RFC 8554 computes
/// them.
const FILE: &str = "bits = 4\nfaults = 1\nframes = 1\nkeys = [\n    \
    \"0000000500000003eb142b0cae0baa72a767ebc0823d1be9d6c2507d2ec8ff28841676d189d72a81a798345dea50263fd12fb9c4b0df5d2b\",\n    \
    \"000000050000000343b9847adfd48a8699d4d494fd7a4ca087f4199325a513c704a728a65ad1ad77358cb9288f1d97f4d219bd0a846d3b99\",\n    \
    \"0000000500000003dc69a7ca35555475677468dfdbaab447547b13d1a3b48079f80f707fabcdd6b7768ec57203ce94da495067258960ff64\",\n    \
    \"0000000500000003f66c0b260c855a013f2d676b22818015a959e50a5c14bcc4cce34692c8700c924123edb73570dee5cca352294ff6a684\",\n\
    ]\nkind = \"kvstore\"\nlevels = 5\nreplicas = 4\n";

/// Another file, in another spelling: frames of version 2, an application of one's own, and keys of W8 and H5. The first is that of replica 2
/// under the seed of 32 bytes 11, by the same other implementation; the others are those above with another type code.
const OTHER_SPELLING: &str =
    "# a public file\nreplicas=4\n'faults' = 0b1\n\"levels\" = 0x5\nkind = 'own' # ours\nbits = +8\nframes = 2\n\
    keys = ['000000050000000458DF850AFD9E2A98CC5FCEC571730C3495AE9979226326196DAFA0409B6154875DEC60117D0E5B0E11743D66F2FFEBBE',\n\
    \"000000050000000443b9847adfd48a8699d4d494fd7a4ca087f4199325a513c704a728a65ad1ad77358cb9288f1d97f4d219bd0a846d3b99\",\n\
    \"0000000500000004dc69a7ca35555475677468dfdbaab447547b13d1a3b48079f80f707fabcdd6b7768ec57203ce94da495067258960ff64\",\n\
    \"0000000500000004f66c0b260c855a013f2d676b22818015a959e50a5c14bcc4cce34692c8700c924123edb73570dee5cca352294ff6a684\"]\n";

/// The file whose value of `keys` is no array.
const NO_ARRAY: &str =
    "bits = 4\nfaults = 1\nframes = 1\nkeys = 4\nkind = \"own\"\nlevels = 5\nreplicas = 4\n";

/// The sentence about a text that describes no cluster.
fn told(alloc: Global, text: &str) -> Option<String> {
    match read(alloc, text) {
        Ok(_) => None,
        Err(fault) => format!(in alloc; "{fault}").ok(),
    }
}

/// The text with another piece in place of the first such piece.
fn edited(alloc: Global, text: &str, old: &str, new: &str) -> Option<String> {
    let (before, after) = text.split_once(old)?;
    format!(in alloc; "{before}{new}{after}").ok()
}

/// Whether the file with such an edit has this fault.
fn is_told(alloc: Global, old: &str, new: &str, wanted: &str) -> bool {
    let Some(text) = edited(alloc, FILE, old, new) else {
        return false;
    };
    match told(alloc, text.as_str()) {
        Some(sentence) => sentence.as_str() == wanted,
        None => false,
    }
}

/// The new piece of the first case whose sentence is another one.
fn first_other<'a>(alloc: Global, cases: &[(&'a str, &'a str, &'a str)]) -> Option<&'a str> {
    for (old, new, wanted) in cases {
        if !is_told(alloc, old, new, wanted) {
            return Some(new);
        }
    }
    None
}

const RANGE: &str = "replicas is a number from 4 to 13";

const FAULTS: &str = "faults is a number from 1 to 4";

const KIND: &str = "kind is \"kvstore\", \"counter\", \"purse\" or \"own\"";

const SIZES: &str = "the key of replica 0 has other sizes than bits and levels say";

#[test]
fn faults_of_names_and_numbers(rt: HostRuntime) {
    let cases = [
        ("bits = 4", "bits = = 4", "line 1 is no TOML"),
        ("kind = ", "kind ", "line 10 is no TOML"),
        (
            "levels = 5",
            "seed = 5",
            "'seed' is no name of a cluster's file",
        ),
        (
            "levels",
            "\"le\\u001bvels\"",
            "'le\\u{1b}vels' is no name of a cluster's file",
        ),
        ("frames = 1\n", "", "frames is missing"),
        ("replicas = 4", "replicas = 3", RANGE),
        ("replicas = 4", "replicas = 14", RANGE),
        ("replicas = 4", "replicas = 260", RANGE),
        ("replicas = 4", "replicas = \"4\"", RANGE),
        ("faults = 1", "faults = 0", FAULTS),
        ("faults = 1", "faults = 5", FAULTS),
        ("faults = 1", "faults = -1", FAULTS),
        ("faults = 1", "faults = 1.0", FAULTS),
        ("frames = 1", "frames = 3", "frames is 1 or 2"),
        ("bits = 4", "bits = 5", "bits is 4 or 8"),
        ("levels = 5", "levels = 15", "levels is 5 or 10"),
        ("kvstore", "KvStore", KIND),
        ("\"kvstore\"", "1", KIND),
        (
            "faults = 1",
            "faults = 2",
            "4 replicas are too few for 2 faults: there are at least 3 * faults + 1",
        ),
    ];
    assert_eq!(rt; first_other(rt.alloc(), &cases), None);
}

#[test]
fn faults_of_keys(rt: HostRuntime) {
    let cases = [
        (
            "replicas = 4",
            "replicas = 5",
            "keys has 4 keys for 5 replicas",
        ),
        (
            "\"0000000500000003eb142b",
            "\"0000000500000003eb142g",
            "the key of replica 0 is not 112 hexadecimal digits",
        ),
        (
            "\"000000050000000343b984",
            "\"000000050000000343b9",
            "the key of replica 1 is not 112 hexadecimal digits",
        ),
        (
            "\"0000000500000003dc69",
            "3, \"0000000500000003dc69",
            "keys has 5 keys for 4 replicas",
        ),
        ("bits = 4", "bits = 8", SIZES),
        ("levels = 5", "levels = 10", SIZES),
        (
            "\"0000000500000003f66c",
            "\"0000000500000009f66c",
            "the key of replica 3 has other sizes than bits and levels say",
        ),
    ];
    assert_eq!(rt; first_other(rt.alloc(), &cases), None);
    let sentence = told(rt.alloc(), NO_ARRAY).expect(&rt, "no array");
    assert!(rt; sentence.as_str() == "keys is an array of public keys");
}

/// Whether the key of the replica has these bytes at its place 8.
fn begins(cluster: &PublicCluster, replica: u8, first: u8, second: u8) -> bool {
    match cluster.ring.key(ReplicaId::new(replica)) {
        Some(key) => {
            let bytes = key.as_bytes();
            bytes[8] == first && bytes[9] == second
        }
        None => false,
    }
}

/// Whether the cluster is that of the file.
fn is_filed(cluster: &PublicCluster) -> bool {
    let config = cluster.config;
    let params = cluster.params;
    config.replicas == 4
        && config.faults == 1
        && config.kind == AppKind::KvStore
        && config.frames == Version::One
        && params.width == Width::W4
        && params.height == TreeHeight::H5
        && begins(cluster, 0, 0xeb, 0x14)
        && begins(cluster, 3, 0xf6, 0x6c)
        && cluster.ring.key(ReplicaId::new(4)).is_none()
}

/// Whether the cluster is that of the other spelling.
fn is_other(cluster: &PublicCluster) -> bool {
    let config = cluster.config;
    config.replicas == 4
        && config.kind == AppKind::Own
        && config.frames == Version::Two
        && cluster.params.width == Width::W8
        && begins(cluster, 0, 0x58, 0xdf)
        && begins(cluster, 1, 0x43, 0xb9)
}

/// The text that is written for the cluster that a text describes.
fn rewritten(alloc: Global, text: &str) -> Option<String> {
    let cluster = read(alloc, text).ok()?;
    text_of(alloc, &cluster).ok()
}

#[test]
fn a_file_is_read_and_written_again(rt: HostRuntime) {
    let alloc = rt.alloc();
    let text = rewritten(alloc, FILE).expect(&rt, "the file describes a cluster");
    assert!(rt; text.as_str() == FILE);
}

/// Whether the file's cluster is read.
fn reads_file(alloc: Global) -> bool {
    match read(alloc, FILE) {
        Ok(cluster) => is_filed(&cluster),
        Err(_) => false,
    }
}

/// Whether the other spelling's cluster is read.
fn reads_other(alloc: Global) -> bool {
    match read(alloc, OTHER_SPELLING) {
        Ok(cluster) => is_other(&cluster),
        Err(_) => false,
    }
}

#[test]
fn files_are_read(rt: HostRuntime) {
    let alloc = rt.alloc();
    assert!(rt; reads_file(alloc));
    assert!(rt; reads_other(alloc));
}
