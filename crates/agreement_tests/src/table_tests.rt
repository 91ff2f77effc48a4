//! Which locks the table holds.

use super::frames::check;
use ledger_model::Phase;
use lock_proofs::{LockFrame, LockTable, TableFull};
use std::alloc::Global;
use test_support::TestCluster;

// Four replicas, and the locks that one of them holds.
#[derive(Drop)]
struct Holder {
    alloc: Global,
    cluster: TestCluster,
    table: LockTable,
}

// The phase of a lock, and the first byte of its value.
fn phase_and_letter(lock: &LockFrame) -> (u32, u8) {
    let letter = match lock.value().transactions() {
        [tx, ..] => tx.as_bytes()[0],
        [] => 0,
    };
    (lock.phase().number(), letter)
}

impl Holder {
    fn new(alloc: Global) -> Option<Self> {
        let cluster = TestCluster::new(alloc, 4, 1).ok()?;
        let table = LockTable::new(alloc).ok()?;
        Some(Holder {
            alloc,
            cluster,
            table,
        })
    }

    // A valid lock of a phase, on the value that starts with this letter.
    fn lock(&mut self, phase: u8, letter: u8) -> Option<LockFrame> {
        let bytes = self.cluster.lock_frame(phase, phase % 4, letter, 3).ok()?;
        let config = self.cluster.config();
        check(self.alloc, &config, self.cluster.ring(), &bytes)?.ok()
    }

    // Whether the table has room for the value that starts with this letter.
    fn has_room(&mut self, letter: u8) -> Option<bool> {
        let lock = self.lock(5, letter)?;
        Some(self.table.has_room_for(lock.value()))
    }

    fn take(&mut self, phase: u8, letter: u8) -> Option<Result<(), TableFull>> {
        let lock = self.lock(phase, letter)?;
        Some(self.table.take(lock))
    }

    fn take_all(&mut self, locks: &[(u8, u8)]) -> Option<()> {
        for (phase, letter) in locks {
            self.take(*phase, *letter)?.ok()?;
        }
        Some(())
    }

    // Reads such a lock in the lock-release round of a phase.
    fn release(&mut self, phase: u8, letter: u8, now: u32) -> Option<()> {
        let lock = self.lock(phase, letter)?;
        self.table.release(&lock, Phase::new(now));
        Some(())
    }

    // Whether the table has exactly the locks of these phases, on values that start with these letters.
    fn holds(&self, wanted: &[(u32, u8)]) -> bool {
        let held = self.table.held();
        for (lock, wanted) in held.iter().zip(wanted) {
            if phase_and_letter(lock) != *wanted {
                return false;
            }
        }
        held.len() == wanted.len()
    }

    // Whether there is no room for a fifth value, and the four stay.
    fn refuses_a_fifth(&mut self) -> Option<bool> {
        let has_room = self.has_room(b'e')?;
        let answer = self.take(5, b'e')?;
        let are_held = self.holds(&[(2, b'a'), (4, b'b'), (1, b'c'), (3, b'd')]);
        Some(!has_room && answer == Err(TableFull) && are_held)
    }

    // Whether a later lock replaces one on the same value.
    fn renews_the_second(&mut self) -> Option<bool> {
        let has_room = self.has_room(b'b')?;
        let answer = self.take(6, b'b')?;
        let are_held = self.holds(&[(2, b'a'), (6, b'b'), (1, b'c'), (3, b'd')]);
        Some(has_room && answer == Ok(()) && are_held)
    }

    // Whether a lock releases nothing before its own phase, and then only locks of no later phase.
    fn releases_two(&mut self) -> Option<bool> {
        self.release(3, b'b', 2)?;
        let count = self.table.held().len();
        self.release(3, b'b', 3)?;
        Some(count == 4 && self.holds(&[(2, b'b'), (5, b'd')]))
    }
}

#[test]
fn holds_four_values_and_renews_them(rt: HostRuntime) {
    let mut holder = Holder::new(rt.alloc()).expect(&rt, "a table");
    let taken = holder.take_all(&[(1, b'c'), (2, b'a'), (3, b'd'), (4, b'b')]);
    assert!(rt; taken.is_some());
    assert!(rt; holder.refuses_a_fifth() == Some(true));
    assert!(rt; holder.renews_the_second() == Some(true));
}

#[test]
fn releases_other_values_of_no_later_phase(rt: HostRuntime) {
    let mut holder = Holder::new(rt.alloc()).expect(&rt, "a table");
    let taken = holder.take_all(&[(1, b'a'), (2, b'b'), (3, b'c'), (5, b'd')]);
    assert!(rt; taken.is_some());
    assert!(rt; holder.releases_two() == Some(true));
}
