//! The passes of an inbox: the rights to put and to take.
use crate::item::Item;
use crate::log::Log;
use crossbeam_queue::Pass;
use std::marker::Model;

/// The right to put under one number. Each thread that puts has one.
#[derive(Drop)]
pub struct PuttingPass {
    pub(crate) number: u32,
    pub(crate) seat: Pass<Item, Log>,
}

impl Model for PuttingPass {
    ghost use Rattle.std.specs.Prelude.{◌≡◌, [], true, false};
    ghost use Rattle.inbox.specs.Passes.{PuttingPassView};
    ghost use Rattle.inbox.specs.InboxRule.{seat_log};

    ghost Value = { PuttingPassView };

    ghost view = { λ p. record { inbox = p.seat.table_id; number = p.number; put = (seat_log p.seat).items } };

    ghost invariant = { λ p. (p.seat.me.1 ≡ []) × ((seat_log p.seat).puts ≡ true) × ((seat_log p.seat).takes ≡ false) × ((seat_log p.seat).number ≡ p.number) };
}

impl PuttingPass {
    ghost use Rattle.std.specs.Prelude.{◌≡◌};

    /// The number of the pass, from 0 on, which its items have.
    pub fn number(&self) -> u32
        ensures { result ≡ self.now.number }
    {
        self.number
    }
}

/// The right to take. An inbox has one.
#[derive(Drop)]
pub struct TakingPass {
    pub(crate) seat: Pass<Item, Log>,
}

impl Model for TakingPass {
    ghost use Rattle.std.specs.Prelude.{◌≡◌, [], true, false};
    ghost use Rattle.inbox.specs.Passes.{TakingPassView};
    ghost use Rattle.inbox.specs.InboxRule.{seat_log};

    ghost Value = { TakingPassView };

    ghost view = { λ p. record { inbox = p.seat.table_id; passes = (seat_log p.seat).passes; taken = (seat_log p.seat).items; ended = (seat_log p.seat).ended } };

    ghost invariant = { λ p. (p.seat.me.1 ≡ []) × ((seat_log p.seat).takes ≡ true) × ((seat_log p.seat).puts ≡ false) };
}
