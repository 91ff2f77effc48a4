//! The seats of a board: the rights to raise one word, and to read all.
use crate::log::Log;
use atomic_table::Seat;
use ledger_model::ReplicaId;
use std::marker::Model;

/// The right to raise the word of one replica. The replica's worker has it.
#[derive(Drop)]
pub struct WriterSeat {
    pub(crate) replica: ReplicaId,
    pub(crate) seat: Seat<(), Log>,
}

impl Model for WriterSeat {
    ghost use Rattle.std.specs.Prelude.{◌≡◌, ◌<◌, [], true, false};
    ghost use Rattle.commit_board.specs.Seats.{WriterSeatView};

    ghost Value = { WriterSeatView };

    ghost view = { λ w. record { board = w.seat.table_id; replica = w.replica; height = w.seat.me.0.height } };

    ghost invariant = { λ w. (w.seat.me.1 ≡ []) × (w.seat.me.0.writes ≡ true) × (w.seat.me.0.makes ≡ false) × (w.seat.me.0.replica ≡ w.replica) × (w.replica < w.seat.table_id.words) };
}

impl WriterSeat {
    ghost use Rattle.std.specs.Prelude.{◌≡◌};

    /// The number of its replica.
    pub fn replica(&self) -> ReplicaId
        ensures { result ≡ self.now.replica }
    {
        self.replica
    }
}

/// The right to read all words. Each thread that reads has one.
#[derive(Drop)]
pub struct ReaderSeat {
    pub(crate) seat: Seat<(), Log>,
}

impl Model for ReaderSeat {
    ghost use Rattle.std.specs.Prelude.{◌≡◌, [], false};
    ghost use Rattle.commit_board.specs.Seats.{ReaderSeatView};

    ghost Value = { ReaderSeatView };

    ghost view = { λ s. record { board = s.seat.table_id; seen = s.seat.me.0.seen; closed = s.seat.me.0.closed } };

    ghost invariant = { λ s. (s.seat.me.1 ≡ []) × (s.seat.me.0.writes ≡ false) × (s.seat.me.0.makes ≡ false) };
}
