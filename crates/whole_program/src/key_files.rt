//! The seed or the cluster that the words don't have: it is read from the file that they name, or drawn. No clause can speak of what a file
//! has, or of what the system draws.
use app_states::Opening;
use byte_streams::{ProgramFault, Resource, STOPPED, complain};
use cluster_files::{ClusterFileFault, read};
use cluster_setup::PublicCluster;
use command_line::{GivenKeys, KeySource, key_source, seed_of_bytes};
use hex::encode_to_slice;
use plain_text::ShownText;
use program::BAD_USAGE;
use std::alloc::{AllocError, Global};
use std::fs::{self, OpenFile, OpenOptions};
use std::io::{self, Read, Write};
use std::os::unix::fs::{OpenOptionsExt, PermissionsExt};
use std::random::RandomSource;
use std::rt::Files;
use std::{fmt, str};

/// The most bytes that are read of a seed's file: one more than 64 digits and a line feed.
const SEED_LEN: u64 = 66;

/// The most bytes that a cluster's file may have, many times what thirteen keys need.
const CLUSTER_LEN: usize = 65_536;

/// The permissions of a file's group and of all others.
const OTHERS: u32 = 0o077;

/// The permissions of a seed's file that is made: its owner may read and write it.
const OWNER_ALONE: u32 = 0o600;

/// What is wrong with the file of a cluster.
#[derive(Drop)]
pub(crate) enum ContentFault {
    /// It has too many bytes.
    TooLong,
    /// Its bytes are not UTF-8.
    NotUtf8,
    /// Its text describes no cluster.
    NoCluster(ClusterFileFault),
}

impl fmt::Display for ContentFault {
    fn fmt<W: fmt::Write>(&self, f: &mut fmt::Formatter<W>) -> fmt::Result {
        match self {
            ContentFault::TooLong => write!(f, "it has more than {CLUSTER_LEN} bytes"),
            ContentFault::NotUtf8 => f.write_str("it is not UTF-8"),
            ContentFault::NoCluster(fault) => fmt::Display::fmt(fault, f),
        }
    }
}

/// Why there is no seed, or no cluster.
#[derive(Drop)]
pub(crate) enum KeyFault<'a> {
    /// Memory ran out, or the system refused random bytes.
    Stopped(ProgramFault),
    /// The file with this path can't be read.
    Unread(&'a str, io::Error),
    /// The file with this path can't be created or written.
    Unwritten(&'a str, io::Error),
    /// The file with this path is no public file of a cluster.
    BadFile(&'a str, ContentFault),
}

impl KeyFault<'_> {
    /// The exit status: a file that is named, but is none of a cluster, is a fault of usage.
    fn status(&self) -> u8 {
        match self {
            KeyFault::BadFile(_, _) => BAD_USAGE,
            _ => STOPPED,
        }
    }
}

impl fmt::Display for KeyFault<'_> {
    fn fmt<W: fmt::Write>(&self, f: &mut fmt::Formatter<W>) -> fmt::Result {
        match self {
            KeyFault::Stopped(fault) => fmt::Display::fmt(fault, f),
            KeyFault::Unread(path, error) => {
                let path = ShownText(path);
                write!(f, "error: can't read the file {path}: {error}")
            }
            KeyFault::Unwritten(path, error) => {
                let path = ShownText(path);
                write!(f, "error: can't create the file {path}: {error}")
            }
            KeyFault::BadFile(path, fault) => {
                let path = ShownText(path);
                write!(
                    f,
                    "error: the file {path} is no public file of a cluster: {fault}"
                )
            }
        }
    }
}

impl From<AllocError> for KeyFault<'_> {
    fn from(error: AllocError) -> Self {
        KeyFault::Stopped(ProgramFault::from(error))
    }
}

/// The warning that the file of the seed, with this path, lets other users do something with it.
#[derive(Drop)]
struct SharedSeedWarning<'a>(&'a str);

impl fmt::Display for SharedSeedWarning<'_> {
    fn fmt<W: fmt::Write>(&self, f: &mut fmt::Formatter<W>) -> fmt::Result {
        let path = ShownText(self.0);
        write!(
            f,
            "warning: the mode of the file {path} lets other users read or change the seed"
        )
    }
}

/// Whether the file's mode lets other users do anything with it. `false` if the system doesn't say.
fn is_shared<F: OpenFile>(file: &F) -> bool {
    match file.metadata() {
        Ok(metadata) => metadata.permissions().mode() & OTHERS != 0,
        Err(_) => false,
    }
}

/// The first bytes of a file, at most this many.
fn first_bytes<F: Read + Drop>(alloc: Global, file: F, most: u64) -> io::Result<Vec<u8>> {
    let mut bytes = Vec::new(alloc);
    file.take(most).read_to_end(&mut bytes)?;
    Ok(bytes)
}

/// The first bytes of the file with this path, enough to see whether they are a seed. Warns if its mode lets other users do anything with it.
fn seed_bytes<R: Files, W: Write>(
    rt: &R,
    alloc: Global,
    path: &str,
    errors: &mut W,
) -> io::Result<Vec<u8>> {
    let file = fs::open(rt, path)?;
    if is_shared(&file) {
        let _ = complain(alloc, errors, &SharedSeedWarning(path));
    }
    first_bytes(alloc, file, SEED_LEN)
}

/// The seed in the file with this path, if the file has one.
fn read_seed<'a, R: Files, W: Write>(
    rt: &R,
    alloc: Global,
    path: &'a str,
    errors: &mut W,
) -> Result<Option<[u8; 32]>, KeyFault<'a>> {
    match seed_bytes(rt, alloc, path, errors) {
        Ok(bytes) => Ok(seed_of_bytes(&bytes)),
        Err(error) => Err(KeyFault::Unread(path, error)),
    }
}

/// A random seed.
fn draw_seed<'a, R: RandomSource>(rt: &R) -> Result<[u8; 32], KeyFault<'a>> {
    let mut seed = [0; 32];
    match rt.fill_bytes(&mut seed) {
        Ok(()) => Ok(seed),
        Err(error) => Err(KeyFault::Stopped(ProgramFault::Refused(Resource::Random, error))),
    }
}

/// Writes a line to a file, and waits until the disk has it.
fn put<F: OpenFile + Write>(file: &mut F, line: &[u8]) -> io::Result<()> {
    file.write_all(line)?;
    file.sync_all()
}

/// Creates the file with this path, which only its owner may read, and writes a line to it. A file that is there already is left alone; one
/// that was made, but can't be written, is removed again.
fn write_new<R: Files>(rt: &R, path: &str, line: &[u8]) -> io::Result<()> {
    let mut file = OpenOptions::new()
        .write(true)
        .create_new(true)
        .mode(OWNER_ALONE)
        .open(rt, path)?;
    let written = put(&mut file, line);
    if written.is_err() {
        let _ = fs::remove_file(rt, path);
    }
    written
}

/// A random seed, which is written to a new file with this path: its 64 hexadecimal digits, and a line feed.
fn new_seed<'a, R: Files + RandomSource>(rt: &R, path: &'a str) -> Result<[u8; 32], KeyFault<'a>> {
    let seed = draw_seed(rt)?;
    let mut line = [b'\n'; 65];
    let _ = encode_to_slice(seed.as_slice(), &mut line[..64]);
    match write_new(rt, path, &line) {
        Ok(()) => Ok(seed),
        Err(error) => Err(KeyFault::Unwritten(path, error)),
    }
}

/// The cluster that these bytes of a file describe.
fn cluster_of_bytes(alloc: Global, bytes: &[u8]) -> Result<PublicCluster, ContentFault> {
    if bytes.len() > CLUSTER_LEN {
        return Err(ContentFault::TooLong);
    }
    let Ok(text) = str::from_utf8(bytes) else {
        return Err(ContentFault::NotUtf8);
    };
    match read(alloc, text) {
        Ok(cluster) => Ok(cluster),
        Err(fault) => Err(ContentFault::NoCluster(fault)),
    }
}

/// The first bytes of the file with this path, enough to see whether it is too long for a cluster's.
fn cluster_bytes<R: Files>(rt: &R, alloc: Global, path: &str) -> io::Result<Vec<u8>> {
    let file = fs::open(rt, path)?;
    first_bytes(alloc, file, CLUSTER_LEN as u64 + 1)
}

/// The cluster whose public file has this path.
fn read_cluster<'a, R: Files>(
    rt: &R,
    alloc: Global,
    path: &'a str,
) -> Result<PublicCluster, KeyFault<'a>> {
    let bytes = match cluster_bytes(rt, alloc, path) {
        Ok(bytes) => bytes,
        Err(error) => return Err(KeyFault::Unread(path, error)),
    };
    match cluster_of_bytes(alloc, &bytes) {
        Ok(cluster) => Ok(cluster),
        Err(ContentFault::NoCluster(ClusterFileFault::NoMemory)) => {
            Err(KeyFault::Stopped(ProgramFault::NoMemory))
        }
        Err(fault) => Err(KeyFault::BadFile(path, fault)),
    }
}

/// What [`run`](program::run) is given: the cluster of the file that the words name; or the seed of such a file, if that has one, or a random
/// one, if they ask for it. Nothing is read or drawn for words that have another fault, but for a cluster's file, or that have the seed
/// themselves. Both get a seed of zeros. By the clause of `key_source` it changes nothing that the words set. So right words keep their own
/// seed, and of wrong ones `run` reports their own fault, and not that a seed is missing.
pub(crate) fn given_keys<'a, A: Opening, R: Files + RandomSource, W: Write>(
    rt: &R,
    alloc: Global,
    words: &'a [&'a str],
    errors: &mut W,
) -> Result<GivenKeys, KeyFault<'a>> {
    let mut given = GivenKeys {
        seed: None,
        cluster: None,
    };
    match key_source::<A>(alloc, words)? {
        KeySource::Words => given.seed = Some([0; 32]),
        KeySource::SeedFile(path) => given.seed = read_seed(rt, alloc, path, errors)?,
        KeySource::Random => given.seed = Some(draw_seed(rt)?),
        KeySource::NewFile(path) => given.seed = Some(new_seed(rt, path)?),
        KeySource::ClusterFile(path) => given.cluster = Some(read_cluster(rt, alloc, path)?),
    }
    Ok(given)
}

/// Writes why there is no seed, or no cluster, and returns the exit status.
pub(crate) fn stop<W: Write>(alloc: Global, fault: &KeyFault<'_>, errors: &mut W) -> u8 {
    let _ = complain(alloc, errors, fault);
    fault.status()
}
