//! A table that has each byte string once.
ghost use Rattle.std.specs.Prelude.{◌≡◌, ◌<◌, [], Some, length, slice_get, option_copied, is_some, take, map, IfSome, IfOk, OnOk, OnErr};
ghost use Rattle.std.specs.List.{IsDistinct};
ghost use Rattle.ledger_model.specs.Values.{same_bytes};
ghost use Rattle.ledger_model.specs.Pools.{is_among};
ghost use Rattle.locked_replica.specs.Strings.{with_string, string_at};

use crate::stored_string::StoredString;
use bytes::Bytes;
use indexmap::IndexSet;
use std::alloc::{AllocError, Global};
use std::hash::RandomState;
use std::marker::Model;

/// Byte strings, each once, in the order in which they were put in. Contracts see the list of them.
pub struct StringTable {
    strings: IndexSet<StoredString, RandomState>,
}

// An own `Drop` keeps proofs short: an owner drops it by one call. See docs/WORKING.md.
impl Drop for StringTable {
    fn drop(self) {
        let StringTable { strings: _strings } = self;
    }
}

impl Model for StringTable {
    ghost use Rattle.std.specs.Prelude.{ℕ, List};
    ghost use Rattle.indexmap.specs.IndexSet.{keys};

    ghost Value = { List (List ℕ) };

    ghost view = { λ t. keys t.strings };
}

impl StringTable {
    /// A table with no string, which allocates nothing yet. It hashes with these random keys.
    pub fn new(alloc: Global, random: RandomState) -> Self
        ensures { result ≡ [] }
    {
        StringTable {
            strings: IndexSet::with_hasher(alloc, random),
        }
    }

    pub fn allocator(&self) -> Global {
        *self.strings.allocator()
    }

    /// The number of strings, which are all different.
    pub fn len(&self) -> usize
        ensures len { result ≡ length self.now }
        ensures distinct { IsDistinct same_bytes self.now }
    {
        self.strings.len()
    }

    /// The string at a position; `None` if there are fewer.
    pub fn get(&self, position: usize) -> Option<&Bytes>
        ensures { option_copied result ≡ slice_get self.now position }
    {
        match self.strings.get_index(position) {
            Some(string) => Some(&string.bytes),
            None => None,
        }
    }

    /// The string at a position.
    pub fn string(&self, position: usize) -> &Bytes
        requires { position < length self.now }
        ensures { result.now ≡ string_at self.now position }
    {
        match self.strings.get_index(position) {
            Some(string) => &string.bytes,
            None => unreachable!(),
        }
    }

    /// The position of a string, if the table has it. The only error is allocation failure.
    pub fn position_of(&self, bytes: &Bytes) -> Result<Option<usize>, AllocError>
        ensures found { IfOk result (λ position. is_some position ≡ is_among self.now bytes.now) }
        ensures position { IfOk result (λ found. IfSome found (λ position. slice_get self.now position ≡ Some bytes.now)) }
    {
        let string = StoredString {
            bytes: bytes.clone()?,
        };
        Ok(self.strings.get_index_of(&string))
    }

    /// Puts in a string, unless the table has it, and returns its position. The only error is allocation failure, and then nothing
    /// changed.
    pub fn put(&mut self, bytes: Bytes) -> Result<usize, AllocError>
        ensures position { IfOk result (λ position. slice_get self.new position ≡ Some bytes) }
        ensures strings { OnOk result (self.new ≡ with_string self.old bytes) }
        ensures err { OnErr result (self.new ≡ self.old) }
    {
        match self.strings.insert_full(StoredString { bytes }) {
            Ok((position, _)) => Ok(position),
            Err(_) => Err(AllocError),
        }
    }

    /// Drops all strings but the first `len`. Allocates nothing.
    pub fn truncate(&mut self, len: usize)
        ensures { self.new ≡ take len self.old }
    {
        self.strings.truncate(len);
    }
}
