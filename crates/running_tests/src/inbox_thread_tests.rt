//! Four threads put into one inbox while a fifth takes: nothing is lost, doubled or reordered within a pass.
ghost use Rattle.std.specs.Prelude.{◌≡◌};

use crate::inbox_tests::{put_bytes, takes};
use inbox::{Inbox, PuttingPass, TakingPass};
use std::alloc::Global;
use std::sync::Wait;
use std::test::Fail;
use std::thread;
use std::thread::Threads;

/// The number of numbers that each pass puts, from 0 on.
const NUMBERS: u32 = 100_000;

/// The number of passes that put.
const PUTTERS: u32 = 4;

/// Puts all numbers, each repeatedly until there is room.
fn sends<R: Wait>(rt: &R, alloc: Global, inbox: &Inbox, mut pass: PuttingPass) -> bool
    requires { pass.inbox ≡ inbox.now }
{
    let mut next = 0;
    for _ in rt.forever() {
        if next >= NUMBERS {
            return true;
        }
        match put_bytes(rt, alloc, inbox, &mut pass, &u32::to_be_bytes(next)) {
            Ok(None) => next += 1,
            Ok(Some(_)) => thread::yield_now(),
            Err(_) => return false,
        }
    }
    unreachable!()
}

/// Whether two threads do so, each with its pass.
fn both_send<R: Threads + Wait + Sync>(
    rt: &R,
    alloc: Global,
    inbox: &Inbox,
    first: PuttingPass,
    second: PuttingPass,
) -> bool
    requires first { first.inbox ≡ inbox.now }
    requires second { second.inbox ≡ inbox.now }
{
    let (one, two) = thread::join(
        rt,
        move || -> bool
            requires { first.inbox ≡ inbox.now }
        { sends(rt, alloc, inbox, first) },
        move || -> bool
            requires { second.inbox ≡ inbox.now }
        { sends(rt, alloc, inbox, second) },
    );
    one && two
}

/// The next number of each pass, and how many numbers are still to arrive.
#[derive(Clone, Copy)]
struct Expected {
    next: [u32; 4],
    left: u32,
}

impl Expected {
    /// Counts a frame. Returns whether it was the next number of its pass.
    fn count(&mut self, from: u32, frame: &[u8]) -> bool {
        let Some(next) = self.next.get_mut(from as usize) else {
            return false;
        };
        let is_next = frame == next.to_be_bytes().as_slice();
        *next = next.wrapping_add(1);
        self.left = self.left.saturating_sub(1);
        is_next
    }

    /// Takes a frame. Returns whether it was the next number of its pass.
    fn takes_next<R: Wait>(&mut self, rt: &R, inbox: &Inbox, pass: &mut TakingPass) -> Option<bool>
        requires { pass.old.inbox ≡ inbox.now }
        ensures { pass.new.inbox ≡ pass.old.inbox }
    {
        let (from, frame) = takes(rt, inbox, pass)?;
        Some(self.count(from, frame.as_slice()))
    }
}

/// Whether all numbers arrive, those of each pass in order.
fn receives<R: Wait>(rt: &R, inbox: &Inbox, mut pass: TakingPass) -> bool
    requires { pass.inbox ≡ inbox.now }
{
    let mut expected = Expected {
        next: [0; 4],
        left: PUTTERS * NUMBERS,
    };
    for _ in rt.forever() {
        if expected.left == 0 {
            return takes(rt, inbox, &mut pass).is_none();
        }
        match expected.takes_next(rt, inbox, &mut pass) {
            Some(true) => {}
            Some(false) => return false,
            None => thread::yield_now(),
        }
    }
    unreachable!()
}

#[test]
fn four_threads_put_and_a_fifth_takes(rt: HostRuntime) -> Result<(), Fail> {
    let alloc = rt.alloc();
    let (inbox, taking, mut putting) = Inbox::new(alloc, PUTTERS)?;
    let (Some(a), Some(b), Some(c), Some(d)) = (
        putting.pop(),
        putting.pop(),
        putting.pop(),
        putting.pop(),
    ) else {
        return Ok(assert!(rt; false, "a pass is missing"));
    };
    let inbox = &inbox;
    let handle = &rt;
    let (came, (first, second)) = thread::join(
        &rt,
        move || -> bool
            requires { taking.inbox ≡ inbox.now }
        { receives(handle, inbox, taking) },
        move || -> (bool, bool)
            requires { (a.inbox ≡ inbox.now) × (b.inbox ≡ inbox.now) × (c.inbox ≡ inbox.now) × (d.inbox ≡ inbox.now) }
        {
            thread::join(
                handle,
                move || -> bool
                    requires { (a.inbox ≡ inbox.now) × (b.inbox ≡ inbox.now) }
                { both_send(handle, alloc, inbox, a, b) },
                move || -> bool
                    requires { (c.inbox ≡ inbox.now) × (d.inbox ≡ inbox.now) }
                { both_send(handle, alloc, inbox, c, d) },
            )
        },
    );
    assert!(rt; came && first && second);
    Ok(())
}
