//! Frames through an inbox.
ghost use Rattle.std.specs.Prelude.{◌≡◌, ℕ, ◌<◌, Some, slice_get, vec_len};
ghost use Rattle.inbox.specs.Passes.{new_putter};

use bytes::Bytes;
use inbox::{Inbox, Item, PuttingPass, TakingPass};
use std::alloc::{AllocError, Global};
use std::sync::Wait;
use std::test::Fail;

/// Puts a frame.
fn puts<R: Wait>(rt: &R, inbox: &Inbox, pass: &mut PuttingPass, frame: Bytes) -> Result<(), Item>
    requires { pass.old.inbox ≡ inbox.now }
    ensures { pass.new.inbox ≡ pass.old.inbox }
{
    let item = Item::new(pass.number(), frame);
    inbox.put(rt, pass, item)
}

/// Puts bytes as a frame. Returns the first byte of a frame that is returned.
pub(crate) fn put_bytes<R: Wait>(
    rt: &R,
    alloc: Global,
    inbox: &Inbox,
    pass: &mut PuttingPass,
    bytes: &[u8],
) -> Result<Option<u8>, AllocError>
    requires { pass.old.inbox ≡ inbox.now }
    ensures { pass.new.inbox ≡ pass.old.inbox }
{
    let frame = Bytes::copy_from_slice(alloc, bytes)?;
    match puts(rt, inbox, pass, frame) {
        Ok(()) => Ok(None),
        Err(back) => Ok(back.into_bytes().first().copied()),
    }
}

/// Takes a frame, with the number of its pass.
pub(crate) fn takes<R: Wait>(rt: &R, inbox: &Inbox, pass: &mut TakingPass) -> Option<(u32, Bytes)>
    requires { pass.old.inbox ≡ inbox.now }
    ensures { pass.new.inbox ≡ pass.old.inbox }
{
    let item = inbox.take(rt, pass)?;
    Some((item.pass(), item.into_bytes()))
}

/// Whether `count` bytes from 0 on are all accepted.
fn fills<R: Wait>(
    rt: &R,
    alloc: Global,
    inbox: &Inbox,
    pass: &mut PuttingPass,
    count: u32,
) -> Result<bool, AllocError>
    requires { pass.old.inbox ≡ inbox.now }
    ensures { pass.new.inbox ≡ pass.old.inbox }
{
    for k in 0..count {
        if put_bytes(rt, alloc, inbox, pass, &[(k % 256) as u8])?.is_some() {
            return Ok(false);
        }
    }
    Ok(true)
}

/// Whether the next frame is this byte, put by pass 1.
fn comes<R: Wait>(rt: &R, inbox: &Inbox, pass: &mut TakingPass, byte: u8) -> bool
    requires { pass.old.inbox ≡ inbox.now }
    ensures { pass.new.inbox ≡ pass.old.inbox }
{
    match takes(rt, inbox, pass) {
        Some((number, frame)) => number == 1 && frame.as_slice() == [byte].as_slice(),
        None => false,
    }
}

/// Whether the next `count` bytes arrive in order, from this one on.
fn comes_in_order<R: Wait>(
    rt: &R,
    inbox: &Inbox,
    pass: &mut TakingPass,
    first: u32,
    count: u32,
) -> bool
    requires { pass.old.inbox ≡ inbox.now }
    ensures { pass.new.inbox ≡ pass.old.inbox }
{
    for k in first..count {
        if !comes(rt, inbox, pass, (k % 256) as u8) {
            return false;
        }
    }
    true
}

/// Whether the inbox is empty.
fn is_empty<R: Wait>(rt: &R, inbox: &Inbox, pass: &mut TakingPass) -> bool
    requires { pass.old.inbox ≡ inbox.now }
    ensures { pass.new.inbox ≡ pass.old.inbox }
{
    takes(rt, inbox, pass).is_none()
}

/// Whether one more frame is returned, and its byte is this one.
fn hands_back<R: Wait>(
    rt: &R,
    alloc: Global,
    inbox: &Inbox,
    pass: &mut PuttingPass,
    byte: u8,
) -> Result<bool, AllocError>
    requires { pass.old.inbox ≡ inbox.now }
    ensures { pass.new.inbox ≡ pass.old.inbox }
{
    Ok(put_bytes(rt, alloc, inbox, pass, &[byte])? == Some(byte))
}

/// Whether the pass is number 1, and through it an empty inbox accepts 1024 frames, accepts one more only after one is taken,
/// returns all in order, accepts three more, and returns the first of those.
fn holds_by_one<R: Wait>(
    rt: &R,
    alloc: Global,
    inbox: &Inbox,
    taking: &mut TakingPass,
    putting: &mut PuttingPass,
) -> Result<bool, AllocError>
    requires taking { taking.old.inbox ≡ inbox.now }
    requires putting { putting.old.inbox ≡ inbox.now }
    ensures taking { taking.new.inbox ≡ taking.old.inbox }
    ensures putting { putting.new.inbox ≡ putting.old.inbox }
{
    let was_empty = is_empty(rt, inbox, taking);
    let is_filled = fills(rt, alloc, inbox, putting, 1024)?;
    let is_full = hands_back(rt, alloc, inbox, putting, 99)?;
    let first_came = comes(rt, inbox, taking, 0);
    let is_filled_again = fills(rt, alloc, inbox, putting, 1)?;
    let others_came = comes_in_order(rt, inbox, taking, 1, 1025);
    let is_empty_again = is_empty(rt, inbox, taking);
    let are_accepted = fills(rt, alloc, inbox, putting, 3)?;
    let next_came = comes(rt, inbox, taking, 0);
    let accepts = was_empty && is_filled && is_full && is_filled_again && are_accepted;
    let gives = first_came && others_came && is_empty_again && next_came;
    Ok(putting.number() == 1 && accepts && gives)
}

/// Whether the second of two passes does so, and its other frames arrive after both passes are handed back.
fn holds_by_two<R: Wait>(
    rt: &R,
    alloc: Global,
    inbox: &Inbox,
    taking: &mut TakingPass,
    putting: &mut Vec<PuttingPass>,
) -> Result<bool, AllocError>
    requires taking { taking.old.inbox ≡ inbox.now }
    requires two { vec_len putting.old ≡ 2 }
    requires putting { (k : ℕ) → k < 2 → slice_get putting.old.items k ≡ Some (new_putter inbox.now k) }
{
    let are_two = putting.len() == 2;
    let mut second = putting.pop().unwrap();
    let first = putting.pop().unwrap();
    let are_held = holds_by_one(rt, alloc, inbox, taking, &mut second);
    inbox.hand_back(taking, second);
    inbox.hand_back(taking, first);
    let others_come = comes_in_order(rt, inbox, taking, 1, 3);
    let is_empty = is_empty(rt, inbox, taking);
    Ok(are_held? && are_two && others_come && is_empty)
}

/// Whether a new inbox with two passes does so.
fn new_one_holds<R: Wait>(rt: &R, alloc: Global) -> Result<bool, AllocError> {
    let (inbox, mut taking, mut putting) = Inbox::new(alloc, 2)?;
    holds_by_two(rt, alloc, &inbox, &mut taking, &mut putting)
}

#[test]
fn holds_1024_frames_in_order_and_those_of_passes_handed_back(rt: HostRuntime) -> Result<(), Fail> {
    assert!(rt; new_one_holds(&rt, rt.alloc())?);
    Ok(())
}
