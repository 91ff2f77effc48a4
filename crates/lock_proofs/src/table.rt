//! The locks that a replica holds at one height.
ghost use Rattle.std.specs.Prelude.{◌≡◌, ◌≤◌, false, not, length, filter, take_while, slice_get, vec_capacity};
ghost use Rattle.std.specs.Option.{option_map_or};
ghost use Rattle.ledger_model.specs.Values.{same_value, is_below};
ghost use Rattle.lock_proofs.specs.LockTables.{with_lock, ends_hold};

use crate::{LockFrame, TableFull};
use ledger_model::{Batch, Lock, Phase};
use std::alloc::{AllocError, Global};
use std::marker::Model;

/// The locks that a replica holds at one height: at most one for each value, at most four, in ascending order of values.
#[derive(Debug, Drop)]
pub struct LockTable {
    locks: Vec<LockFrame>,
}

impl Model for LockTable {
    ghost use Rattle.std.specs.Prelude.{◌≤◌, List, vec_capacity};
    ghost use Rattle.lock_proofs.specs.LockTables.{SignedLock};
    ghost use Rattle.lock_proofs.specs.Tables.{IsTable};

    ghost Value = { List SignedLock };

    ghost view = { λ t. t.locks.items };

    ghost invariant = { λ t. IsTable t.locks.items × (4 ≤ vec_capacity t.locks) };
}

impl LockTable {
    ghost use Rattle.std.specs.Prelude.{◌≡◌, ◌≤◌, [], length, not, is_err, IfOk, OnOk, OnErr};
    ghost use Rattle.lock_proofs.specs.LockTables.{with_lock, has_four_others, released};
    ghost use Rattle.lock_proofs.specs.Tables.{IsTable};

    /// The most locks that a replica holds at a time.
    pub const MAX_LEN: usize = 4;

    /// An empty table, which has room for all locks that it can ever hold.
    pub fn new(alloc: Global) -> Result<Self, AllocError>
        ensures { IfOk result (λ table. table ≡ []) }
    {
        Ok(LockTable {
            locks: Vec::with_capacity(alloc, Self::MAX_LEN)?,
        })
    }

    /// Whether [`LockTable::take`] takes a lock on this value: whether locks on at most three other values are held.
    /// Allocates nothing.
    pub fn has_room_for(&self, value: &Batch) -> bool
        ensures { result ≡ not (has_four_others value.now self.now) }
    {
        number_of_others(&self.locks, value) < Self::MAX_LEN
    }

    /// Takes the lock; it replaces a lock on the same value. `TableFull` comes exactly if there is no room for its
    /// value. Allocates nothing.
    pub fn take(&mut self, lock: LockFrame) -> Result<(), TableFull>
        ensures full { is_err result ≡ has_four_others lock.lock.value self.old }
        ensures taken { OnOk result (self.new ≡ with_lock lock self.old) }
        ensures unchanged { OnErr result (self.new ≡ self.old) }
    {
        if !self.has_room_for(lock.value()) {
            return Err(TableFull);
        }
        put(&mut self.locks, lock);
        Ok(())
    }

    /// Releases locks by a lock that was read in the lock-release round of phase `now`: every lock on another value
    /// whose phase is not after that of the read lock, if the read lock's phase is not after `now`. Allocates nothing.
    pub fn release(&mut self, read: &LockFrame, now: Phase)
        ensures { self.new ≡ released now read.now.lock self.old }
    {
        let read = read.lock();
        self.locks.retain(|held| !ends_hold(now, read, held.lock()));
    }

    /// The locks in ascending order of values, each with its frame.
    pub fn held(&self) -> &[LockFrame]
        ensures locks { result.now ≡ self.now }
        ensures table { IsTable self.now }
    {
        self.locks.as_slice()
    }
}

/// Replaces the lock on the same value, or else inserts the lock in order. There is room for it.
fn put(locks: &mut Vec<LockFrame>, lock: LockFrame)
    requires { length (with_lock lock locks.old.items) ≤ vec_capacity locks.old }
    ensures items { locks.new.items ≡ with_lock lock locks.old.items }
    ensures capacity { vec_capacity locks.new ≡ vec_capacity locks.old }
{
    let place = place_for(locks, lock.value());
    if is_held_at(locks, place, lock.value()) {
        locks[place] = lock;
    } else if locks.insert(place, lock).is_err() {
        unreachable!()
    }
}

/// The number of locks on other values.
fn number_of_others(locks: &[LockFrame], value: &Batch) -> usize
    ensures { result ≡ length (filter (λ m. not (same_value value.now m.lock.value)) locks.now) }
{
    locks.iter().filter(|held| value != held.value()).count()
}

/// The number of locks on lower values, which is the index for a lock on this value.
fn place_for(locks: &[LockFrame], value: &Batch) -> usize
    ensures { result ≡ length (take_while (λ m. is_below m.lock.value value.now) locks.now) }
{
    locks.iter().take_while(|held| held.value() < value).count()
}

/// Whether the lock at this index is on the value.
fn is_held_at(locks: &[LockFrame], place: usize, value: &Batch) -> bool
    ensures { result ≡ option_map_or (λ m. same_value value.now m.lock.value) (slice_get locks.now place) false }
{
    locks.get(place).is_some_and(|held| value == held.value())
}

/// Whether a lock that was read in the lock-release round of phase `now` releases the held lock.
fn ends_hold(now: Phase, read: &Lock, held: &Lock) -> bool
    ensures { result ≡ ends_hold now read.now held.now }
{
    held.value != read.value && held.phase <= read.phase && read.phase <= now
}
