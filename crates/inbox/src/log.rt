//! The logs of an inbox's passes, and the rule of its queue. All of it exists only in proofs: no value of these types is ever made.
use crate::item::Item;
use crossbeam_queue::protocol::{Join, Lesson, Outcome, Protocol, Split};
use std::collections::LinkedList;

/// What a pass did: the items that it put under its number; or the items that it took, and what it knows of the putting passes.
pub struct Log {
    pub puts: bool,
    pub takes: bool,
    pub number: u32,
    pub items: LinkedList<Item>,
    pub passes: u32,
    pub ended: LinkedList<(u32, LinkedList<Item>)>,
}

/// The rule of the queue.
pub struct InOrder;

impl Protocol<Item, Log> for InOrder {
    ghost use Rattle.std.specs.Prelude.{[]};
    ghost use Rattle.inbox.specs.InboxRule.{KeepsInbox, taker_log};

    ghost holds = { KeepsInbox };

    ghost first = { taker_log 0 [] [] };
}

/// The step in which the taking pass makes a putting pass.
pub struct NextPass;

impl Split<Log> for NextPass {
    ghost use Rattle.inbox.specs.InboxRule.{with_pass, next_pass};

    ghost left = { with_pass };

    ghost right = { next_pass };
}

/// The step that hands a putting pass back to the taking pass.
pub struct HandedBack;

impl Join<Log> for HandedBack {
    ghost use Rattle.inbox.specs.InboxRule.{with_ended, no_pass};

    ghost both = { with_ended };

    ghost spent = { no_pass };
}

/// The outcome of a put.
pub struct ByPutting;

impl Outcome<Item, Log> for ByPutting {
    ghost use Rattle.inbox.specs.InboxRule.{Putting};

    ghost then = { Putting };
}

impl Lesson<Item, Log> for ByPutting {
    ghost use Rattle.inbox.specs.InboxRule.{Beside};

    ghost fact = { Beside };
}

/// The outcome of a take.
pub struct ByTaking;

impl Outcome<Item, Log> for ByTaking {
    ghost use Rattle.inbox.specs.InboxRule.{Taking};

    ghost then = { Taking };
}

impl Lesson<Item, Log> for ByTaking {
    ghost use Rattle.inbox.specs.InboxRule.{Behind};

    ghost fact = { Behind };
}
