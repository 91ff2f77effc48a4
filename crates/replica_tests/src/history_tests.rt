//! Histories are read back from their bytes: those of played scenarios, and small files, of which some are bad.
use crate::fault::Fault;
use crate::playing::{history_of, played};
use crate::scripts::{PLAIN, REFUSALS, RETIRED, SEVENTEEN, SEVENTEEN_IN_VERSION_2, Script};
use app_kinds::AnyKind;
use bytes::Bytes;
use history_bytes::{HistoryFault, history_bytes, read_histories};
use ledger_model::{History, Version};
use simulation::Simulation;
use std::alloc::{AllocError, Global};
use std::hash::RandomState;
use std::test::Fail;

/// A file in pieces, with its name.
type File = (&'static str, &'static [&'static [u8]]);

/// Replica 0, and the number of its entries: one.
const ONE: &[u8] = b"\0\0\0\0\x01";

/// A round end that sends one frame.
const SENDS: &[u8] = b"\x04\x04\0\0\0\x01";

/// The first report of replica 0 on the batch `[a=1]` at height 1, without a signature, after the length of the body.
const FRAME: &[u8] = b"\0\0\0\x19\x01\0\0\0\x01\0\0\0\x01\0\0\x01\x03a=1\x01\x01\x03a=1\0\0\0";

/// The same in phase 0.
const NO_PHASE: &[u8] = b"\0\0\0\x19\x01\0\0\0\x01\0\0\0\0\0\0\x01\x03a=1\x01\x01\x03a=1\0\0\0";

/// The same with one byte after the body.
const LONG: &[u8] = b"\0\0\0\x1a\x01\0\0\0\x01\0\0\0\x01\0\0\x01\x03a=1\x01\x01\x03a=1\0\0\0\0";

/// Files of histories, and their numbers of histories.
const GOOD: [(File, usize); 20] = [
    (("no byte", &[]), 0),
    (("no entry", &[b"\0\0\0\0\0"]), 1),
    (("two histories", &[b"\0\0\0\0\0\xff\0\0\0\0"]), 2),
    (("taken", &[ONE, b"\x01\0\0\0\x03a=1\x01\0"]), 1),
    (("code", &[ONE, b"\x01\0\0\0\0\x01\x05\0\0\x01\x02"]), 1),
    (("full", &[ONE, b"\x01\0\0\0\x01a\x01\x04"]), 1),
    (
        ("high", &[ONE, b"\x02\xff\xff\xff\xff\x02\0\x02\x01a\x02bc"]),
        1,
    ),
    (("retired", &[ONE, b"\x02\0\0\0\0\x02\x04"]), 1),
    (("accepted", &[ONE, b"\x03\0\0\0\x02xy\x03\0"]), 1),
    (("cause 11", &[ONE, b"\x03\0\0\0\0\x03\x0b"]), 1),
    (("mute", &[ONE, b"\x04\x04\0\x01\0\0"]), 1),
    (("to all", &[ONE, SENDS, b"\xff", FRAME]), 1),
    (("to 254", &[ONE, SENDS, b"\xfe", FRAME]), 1),
    (("last round", &[ONE, b"\x04\x04\x01"]), 1),
    (
        (
            "codes",
            &[
                ONE,
                b"\x05\x05\0\0\0\x10\x01\x02\0\0\0\x01\0\0\0\x02hashhashhashhashhashhashhashhash",
            ],
        ),
        1,
    ),
    (
        (
            "value",
            &[ONE, b"\x06\0\0\0\0\x01k\x06\0\0\0\0\x02\x01\x02vw"],
        ),
        1,
    ),
    (("absent", &[ONE, b"\x06\0\0\0\x05\0\x06\0\0\0\0\x05\0"]), 1),
    (("not held", &[ONE, b"\x06\0\0\0\x05\0\x06\x01"]), 1),
    (("new floor", &[ONE, b"\x07\0\0\0\x02\x07\0\0\0\0\x02"]), 1),
    (("not above", &[ONE, b"\x07\0\0\0\x02\x07\x02"]), 1),
];

/// Files that are no histories.
const BAD: [File; 28] = [
    ("replica alone", &[b"\0"]),
    ("cut", &[ONE, b"\x04\x04"]),
    ("one byte more", &[ONE, b"\x04\x04\x01\0"]),
    ("count too large", &[b"\0\xff\xff\xff\xff\x04\x04\x01"]),
    ("little-endian count", &[b"\0\x01\0\0\0\x04\x04\x01"]),
    ("event 0", &[ONE, b"\0\0\0"]),
    ("event 8", &[ONE, b"\x08\x08\0"]),
    ("reply to Execute", &[ONE, b"\x04\x05\x01"]),
    ("cut transaction", &[ONE, b"\x01\xff\xff\xff\xffa=1\x01\0"]),
    ("submit 6", &[ONE, b"\x01\0\0\0\0\x01\x06"]),
    ("cut code", &[ONE, b"\x01\0\0\0\0\x01\x05\0\0\x01"]),
    ("propose 5", &[ONE, b"\x02\0\0\0\x01\x02\x05"]),
    (
        "17 transactions",
        &[
            ONE,
            b"\x02\0\0\0\x01\x02\0\x11",
            b"\x01a\x01a\x01a\x01a\x01a\x01a\x01a\x01a\x01a\x01a\x01a\x01a\x01a\x01a\x01a\x01a\x01a",
        ],
    ),
    ("empty transaction", &[ONE, b"\x02\0\0\0\x01\x02\0\x01\0"]),
    ("cause 12", &[ONE, b"\x03\0\0\0\0\x03\x0c"]),
    ("flag 2", &[ONE, b"\x04\x04\0\x02\0\0"]),
    ("last round 2", &[ONE, b"\x04\x04\x02"]),
    ("no frame", &[ONE, SENDS, b"\xff"]),
    ("phase 0", &[ONE, SENDS, b"\xff", NO_PHASE]),
    ("long frame", &[ONE, SENDS, b"\xff", LONG]),
    ("cut frame", &[ONE, SENDS, b"\xff\xff\xff\xff\xff", FRAME]),
    ("execute 2", &[ONE, b"\x05\x05\x02"]),
    (
        "cut hash",
        &[
            ONE,
            b"\x05\x05\0\0\0\0\x01\0hashhashhashhashhashhashhashhas",
        ],
    ),
    (
        "key of 65 bytes",
        &[
            ONE,
            b"\x06\0\0\0\0\x41",
            b"kkkkkkkkkkkkkkkkkkkkkkkkkkkkkkkkkkkkkkkkkkkkkkkkkkkkkkkkkkkkkkkkk",
            b"\x06\x01",
        ],
    ),
    ("query 2", &[ONE, b"\x06\0\0\0\0\0\x06\x02"]),
    ("presence 2", &[ONE, b"\x06\0\0\0\0\0\x06\0\0\0\0\0\x02\0"]),
    ("retire 3", &[ONE, b"\x07\0\0\0\x02\x07\x03"]),
    ("cut floor", &[ONE, b"\x07\0\0\0\x02\x07\0\0\0\0"]),
];

/// The pieces, one after another.
fn joined(alloc: Global, pieces: &[&[u8]]) -> Result<Vec<u8>, AllocError> {
    let mut bytes = Vec::new(alloc);
    for piece in pieces {
        bytes.extend_from_slice(piece)?;
    }
    Ok(bytes)
}

/// The histories that the bytes are.
fn read(alloc: Global, bytes: &[u8]) -> Result<Vec<History>, Fault> {
    let shared = Bytes::copy_from_slice(alloc, bytes)?;
    Ok(read_histories(Version::One, alloc, shared)?)
}

/// The bytes of histories, one after another.
fn written(alloc: Global, histories: &[History]) -> Result<Vec<u8>, AllocError> {
    let mut bytes = Vec::new(alloc);
    for history in histories {
        bytes.extend_from_slice(&history_bytes(alloc, history)?)?;
    }
    Ok(bytes)
}

/// The numbers of entries of the histories that the bytes are, if those histories are written as the same bytes.
fn lens_read(alloc: Global, bytes: &[u8]) -> Result<Vec<usize>, Fault> {
    let histories = read(alloc, bytes)?;
    if written(alloc, &histories)?.as_slice() != bytes {
        return Err(Fault::OtherBytes);
    }
    let mut lens = Vec::new(alloc);
    for history in &histories {
        lens.push(history.entries.as_slice().len())?;
    }
    Ok(lens)
}

fn is_bad(alloc: Global, bytes: &[u8]) -> bool {
    matches!(
        read(alloc, bytes),
        Err(Fault::History(HistoryFault::BadHistory))
    )
}

/// The name of the first good file that isn't read as its number of histories.
fn first_unread(alloc: Global) -> Result<Option<&'static str>, AllocError> {
    for ((name, pieces), histories) in GOOD {
        let bytes = joined(alloc, pieces)?;
        if !matches!(lens_read(alloc, &bytes), Ok(lens) if lens.len() == histories) {
            return Ok(Some(name));
        }
    }
    Ok(None)
}

/// The name of the first bad file that is read.
fn first_read(alloc: Global) -> Result<Option<&'static str>, AllocError> {
    for (name, pieces) in BAD {
        let bytes = joined(alloc, pieces)?;
        if !is_bad(alloc, &bytes) {
            return Ok(Some(name));
        }
    }
    Ok(None)
}

/// Appends the history of a replica, and returns its number of entries.
fn put_history(
    alloc: Global,
    simulation: &Simulation<AnyKind>,
    replica: u8,
    bytes: &mut Vec<u8>,
) -> Result<usize, Fault> {
    let told = history_of(simulation, replica)?;
    bytes.extend_from_slice(&history_bytes(alloc, &told.history)?)?;
    Ok(told.history.entries.as_slice().len())
}

/// The bytes of the histories of four replicas after a script was played, and the numbers of their entries.
fn played_bytes(
    alloc: Global,
    random: RandomState,
    script: Script,
) -> Result<(Vec<u8>, Vec<usize>), Fault> {
    let simulation = played(alloc, random, script)?;
    let mut bytes = Vec::new(alloc);
    let mut lens = Vec::new(alloc);
    for replica in 0..4 {
        let len = put_history(alloc, &simulation, replica, &mut bytes)?;
        lens.push(len)?;
    }
    Ok((bytes, lens))
}

/// Whether the histories of a script are read back, and their bytes without the last aren't.
fn is_script_read(alloc: Global, random: RandomState, script: Script) -> Result<bool, Fault> {
    let (bytes, lens) = played_bytes(alloc, random, script)?;
    let Some((_, cut)) = bytes.as_slice().split_last() else {
        return Ok(false);
    };
    Ok(lens_read(alloc, &bytes)? == lens && is_bad(alloc, cut))
}

/// Whether the histories of a script are histories of a cluster with frames of this version.
fn is_script_of(
    alloc: Global,
    random: RandomState,
    script: Script,
    version: Version,
) -> Result<bool, Fault> {
    let (bytes, lens) = played_bytes(alloc, random, script)?;
    match read_histories(version, alloc, Bytes::from_vec(bytes)?) {
        Ok(histories) => Ok(histories.len() == lens.len()),
        Err(HistoryFault::BadHistory) => Ok(false),
        Err(HistoryFault::NoMemory) => Err(Fault::NoHistory),
    }
}

// A batch of 17 transactions, and frames of version 2, are in no history of a cluster with frames of version 1.
#[test]
fn histories_are_read_in_the_version_of_their_cluster(rt: HostRuntime) -> Result<(), Fail> {
    let random = RandomState::new(&rt)?;
    for (script, version, wanted) in [
        (SEVENTEEN, Version::One, true),
        (SEVENTEEN, Version::Two, true),
        (SEVENTEEN_IN_VERSION_2, Version::One, false),
        (SEVENTEEN_IN_VERSION_2, Version::Two, true),
    ] {
        let is_read = is_script_of(rt.alloc(), random, script, version)?;
        assert!(rt; is_read == wanted, "{version:?} {wanted}");
    }
    Ok(())
}

#[test]
fn histories_of_a_scenario_are_read_back(rt: HostRuntime) -> Result<(), Fail> {
    let random = RandomState::new(&rt)?;
    for (number, script) in [PLAIN, RETIRED, REFUSALS].into_iter().enumerate() {
        let is_read = is_script_read(rt.alloc(), random, script).ok();
        assert_eq!(rt; is_read, Some(true), "script {number}");
    }
    Ok(())
}

#[test]
fn small_files_are_read_or_bad(rt: HostRuntime) -> Result<(), Fail> {
    assert_eq!(rt; first_unread(rt.alloc())?, None);
    assert_eq!(rt; first_read(rt.alloc())?, None);
    Ok(())
}
