//! The inbox and its calls.
use crate::item::Item;
use crate::log::{ByPutting, ByTaking, HandedBack, InOrder, Log, NextPass};
use crate::passes::{PuttingPass, TakingPass};
use crossbeam_queue::RuledArrayQueue;
use std::alloc::{AllocError, Global};
use std::marker::Model;
use std::sync::Wait;

/// Frames from several putting passes to one taking pass. Threads share it by `&`.
#[derive(Drop)]
pub struct Inbox {
    queue: RuledArrayQueue<Item, Log, InOrder>,
}

impl Model for Inbox {
    ghost use Rattle.std.specs.Prelude.{◌≡◌};
    ghost use Rattle.crossbeam_queue.specs.Passes.{ruled_capacity};
    ghost use Rattle.inbox.specs.Passes.{InboxId};

    ghost Value = { InboxId };

    ghost view = { λ i. i.queue.table.shared.table_id };

    ghost invariant = { λ i. ruled_capacity i.queue ≡ 1024 };
}

impl Inbox {
    ghost use Rattle.std.specs.Prelude.{◌≡◌, ℕ, List, ◌+◌, ◌<◌, [], ◌∷◌, ◌++◌, Some, slice_get, vec_len, IfOk, OnOk, IfErr, IfSome, IfNone};
    ghost use Rattle.ledger_model.specs.Inboxes.{Put};
    ghost use Rattle.inbox.specs.Passes.{new_putter, new_taker, AllTaken, IsShared};

    /// The most items in an inbox.
    pub const CAPACITY: usize = 1024;

    /// An inbox, its one taking pass, and `putters` putting passes, whose numbers are their indices.
    pub fn new(
        alloc: Global,
        putters: u32,
    ) -> Result<(Inbox, TakingPass, Vec<PuttingPass>), AllocError>
        ensures taking { IfOk result (λ r. r.1 ≡ new_taker r.0 putters) }
        ensures count { IfOk result (λ r. vec_len r.2 ≡ putters) }
        ensures putting { IfOk result (λ r. (k : ℕ) → k < putters → slice_get r.2.items k ≡ Some (new_putter r.0 k)) }
    {
        let mut putting = Vec::with_capacity(alloc, putters as usize)?;
        let (queue, seat) = RuledArrayQueue::ruled(alloc, Self::CAPACITY)?;
        let inbox = Inbox { queue };
        let mut taking = TakingPass { seat };
        for number in 0..putters {
            let pass = inbox.next_pass(&mut taking, number);
            putting.push_reserved(pass);
        }
        Ok((inbox, taking, putting))
    }

    /// The next putting pass.
    fn next_pass(&self, taking: &mut TakingPass, number: u32) -> PuttingPass
        requires inbox { taking.old.inbox ≡ self.now }
        requires number { taking.old.passes ≡ number }
        ensures taking { taking.new ≡ record taking.old { passes = number + 1 } }
        ensures putting { result ≡ new_putter self.now number }
    {
        let seat = self.queue.another::<NextPass>(&mut taking.seat);
        PuttingPass { number, seat }
    }

    /// Appends the item to what this pass put, or returns it. That it returns the item only if the inbox is full is
    /// tested, not proved.
    pub fn put<R: Wait>(&self, rt: &R, pass: &mut PuttingPass, item: Item) -> Result<(), Item>
        requires inbox { pass.old.inbox ≡ self.now }
        requires number { item.pass ≡ pass.old.number }
        ensures put { OnOk result (pass.new ≡ record pass.old { put = pass.old.put ++ item ∷ [] }) }
        ensures back { IfErr result (λ given. given ≡ item) }
        ensures same { IfErr result (λ given. pass.new ≡ pass.old) }
    {
        self.queue.push_as::<ByPutting, R>(rt, &mut pass.seat, item)
    }

    /// Pops one item off the queue, by the inbox's rule.
    fn pop<R: Wait>(&self, rt: &R, pass: &mut TakingPass) -> Option<Item>
        requires { pass.old.inbox ≡ self.now }
        ensures taken { IfSome result (λ item. pass.new ≡ record pass.old { taken = pass.old.taken ++ item ∷ [] }) }
        ensures pass { IfSome result (λ item. item.pass < pass.old.passes) }
        ensures same { IfNone result (pass.new ≡ pass.old) }
        ensures all { IfNone result (AllTaken pass.old.taken pass.old.ended) }
    {
        self.queue.pop_as::<ByTaking, R>(rt, &mut pass.seat)
    }

    /// Takes the oldest item. `None` comes only if everything was taken of each pass that was handed back. That then no
    /// other pass has an item in the inbox either is tested, not proved.
    pub fn take<R: Wait>(&self, rt: &R, pass: &mut TakingPass) -> Option<Item>
        requires { pass.old.inbox ≡ self.now }
        ensures taken { IfSome result (λ item. pass.new ≡ record pass.old { taken = pass.old.taken ++ item ∷ [] }) }
        ensures pass { IfSome result (λ item. item.pass < pass.old.passes) }
        ensures same { IfNone result (pass.new ≡ pass.old) }
        ensures all { IfNone result (AllTaken pass.old.taken pass.old.ended) }
    {
        self.pop(rt, pass)
    }

    /// Hands a putting pass back: the items that it put, in order, are those that were taken followed by those in the inbox.
    pub fn hand_back(&self, taking: &mut TakingPass, putting: PuttingPass)
        requires taking { taking.old.inbox ≡ self.now }
        requires putting { putting.inbox ≡ self.now }
        ensures ended { taking.new ≡ record taking.old { ended = taking.old.ended ++ (putting.number, putting.put) ∷ [] } }
        ensures shared { (held : List Put) × IsShared putting.number putting.put taking.old.taken held }
    {
        let PuttingPass { number: _, seat } = putting;
        self.queue.absorb::<HandedBack>(&mut taking.seat, seat);
        self.queue.learn_as::<ByTaking>(&mut taking.seat);
    }
}
