//! The keys of hash tables come from the source of random bytes that is handed in, of which no clause can speak.
use byte_streams::{ProgramFault, Resource, new_random_key};
use std::hash::{BuildHasher, Hasher};
use std::io::{self, ErrorKind};
use std::random::RandomSource;

/// A source whose bytes count up from a first one, or that refuses.
#[derive(Drop)]
struct Counting {
    first: u8,
    is_refused: bool,
}

impl RandomSource for Counting {
    fn fill_bytes(&self, buf: &mut [u8]) -> io::Result<()> {
        if self.is_refused {
            return Err(io::Error::from(ErrorKind::Unsupported));
        }
        let mut next = self.first;
        for byte in buf {
            *byte = next;
            next = next.wrapping_add(1);
        }
        Ok(())
    }
}

/// The hash of the bytes under the key that this source gives; `None` if it refuses.
fn hash_of(source: &Counting, bytes: &[u8]) -> Option<u64> {
    match new_random_key(source) {
        Ok(key) => {
            let mut hasher = key.build_hasher();
            hasher.write(bytes);
            Some(hasher.finish())
        }
        Err(_) => None,
    }
}

/// The first row that differs: the first byte of the key, the bytes, and their SipHash-1-3 by another implementation, which has the reference
/// vectors of SipHash.
fn wrong_row() -> Option<usize> {
    let rows: [(u8, &[u8], u64); 3] = [
        (0, b"", 0xabac_0158_050f_c4dc),
        (0, b"abft", 0xc772_ab4f_04b2_bfd7),
        (1, b"", 0x1142_ee46_0f04_01d3),
    ];
    rows.iter().position(|(first, bytes, hash)| {
        let source = Counting {
            first: *first,
            is_refused: false,
        };
        hash_of(&source, bytes) != Some(*hash)
    })
}

#[test]
fn a_key_comes_from_its_source(rt: HostRuntime) {
    let wrong = wrong_row();
    assert!(rt; wrong == None, "row {wrong:?}");
}

#[test]
fn a_source_that_refuses_is_told(rt: HostRuntime) {
    let source = Counting {
        first: 0,
        is_refused: true,
    };
    let is_told = match new_random_key(&source) {
        Err(ProgramFault::Refused(Resource::Random, error)) => {
            error.kind() == ErrorKind::Unsupported
        }
        _ => false,
    };
    assert!(rt; is_told);
}
