//! The commit board and its calls.
use crate::log::{ByOwning, ByRaising, ByReading, HandedBack, Log, NextReader, NextWriter, Rising};
use crate::seats::{ReaderSeat, WriterSeat};
use atomic_table::{Seat, Table};
use ledger_model::{Config, Height, ReplicaId};
use std::alloc::{AllocError, Global};
use std::marker::Model;

/// The committed heights of all replicas. Threads share it by `&`.
#[derive(Drop)]
pub struct Board {
    table: Table<(), Log, u8, Rising, Global>,
}

impl Model for Board {
    ghost use Rattle.std.specs.Prelude.{◌≡◌, ◌<◌};
    ghost use Rattle.commit_board.specs.Seats.{BoardId};

    ghost Value = { BoardId };

    ghost view = { λ b. b.table.shared.table_id };

    ghost invariant = { λ b. (b.table.shared.key ≡ b.table.shared.table_id.words) × (0 < b.table.shared.table_id.words) × (b.table.shared.table_id.words < 256) };
}

impl Board {
    ghost use Rattle.std.specs.Prelude.{◌≡◌, ℕ, ◌<◌, ◌≤◌, ◌+◌, max, true, false, IsTrue, List, [], ◌∷◌, ◌++◌, Some, slice_get, vec_len, vec_capacity, IfOk};
    ghost use Rattle.ledger_model.specs.Boards.{heights_of, rises_to};
    ghost use Rattle.commit_board.specs.Seats.{replicas_of, new_writer, new_reader, ReadAtOnce, RaisedAtOnce, IsLast, IsLeastRead};

    /// A board on which nothing is published, a writer's seat for each replica, and `readers` readers' seats.
    pub fn new(
        alloc: Global,
        config: &Config,
        readers: u32,
    ) -> Result<(Board, Vec<WriterSeat>, Vec<ReaderSeat>), AllocError>
        ensures replicas { IfOk result (λ r. replicas_of r.0 ≡ config.now.replicas) }
        ensures writer_count { IfOk result (λ r. vec_len r.1 ≡ config.now.replicas) }
        ensures writers { IfOk result (λ r. (k : ℕ) → k < config.now.replicas → slice_get r.1.items k ≡ Some (new_writer r.0 k)) }
        ensures reader_count { IfOk result (λ r. vec_len r.2 ≡ readers) }
        ensures readers { IfOk result (λ r. (k : ℕ) → k < readers → slice_get r.2.items k ≡ Some (new_reader r.0)) }
    {
        let replicas = usize::from(config.replicas);
        let writing = Vec::with_capacity(alloc, replicas)?;
        let reading = Vec::with_capacity(alloc, readers as usize)?;
        let words = Vec::from_elem(alloc, 0u64, replicas)?;
        let (table, mut maker) = Table::of_words(alloc, words.as_slice(), &config.replicas)?;
        let board = Board { table };
        let writing = board.with_writers(&mut maker, writing, config.replicas);
        let reading = board.with_readers(&mut maker, reading, readers);
        Ok((board, writing, reading))
    }

    /// The writers' seats of `replicas` replicas.
    fn with_writers(
        &self,
        maker: &mut Seat<(), Log>,
        mut writing: Vec<WriterSeat>,
        replicas: u8,
    ) -> Vec<WriterSeat>
        requires board { maker.old.table_id ≡ self.now }
        requires maker { (maker.old.me.0.makes ≡ true) × (maker.old.me.0.writes ≡ false) × (maker.old.me.0.replica ≡ 0) }
        requires replicas { replicas ≡ replicas_of self.now }
        requires empty { vec_len writing ≡ 0 }
        requires room { replicas ≤ vec_capacity writing }
        ensures board { maker.new.table_id ≡ maker.old.table_id }
        ensures count { vec_len result ≡ replicas }
        ensures dealt { (k : ℕ) → k < replicas → slice_get result.items k ≡ Some (new_writer self.now k) }
    {
        for replica in 0..replicas {
            let seat = self.next_writer(maker, replica);
            writing.push_reserved(seat);
        }
        writing
    }

    /// `readers` readers' seats.
    fn with_readers(
        &self,
        maker: &mut Seat<(), Log>,
        mut reading: Vec<ReaderSeat>,
        readers: u32,
    ) -> Vec<ReaderSeat>
        requires board { maker.old.table_id ≡ self.now }
        requires empty { vec_len reading ≡ 0 }
        requires room { readers ≤ vec_capacity reading }
        ensures count { vec_len result ≡ readers }
        ensures dealt { (k : ℕ) → k < readers → slice_get result.items k ≡ Some (new_reader self.now) }
    {
        for _ in 0..readers {
            let seat = self.next_reader(maker);
            reading.push_reserved(seat);
        }
        reading
    }

    /// The writer's seat of the next replica.
    fn next_writer(&self, maker: &mut Seat<(), Log>, replica: u8) -> WriterSeat
        requires board { maker.old.table_id ≡ self.now }
        requires maker { (maker.old.me.0.makes ≡ true) × (maker.old.me.0.writes ≡ false) × (maker.old.me.0.replica ≡ replica) }
        requires replica { replica < replicas_of self.now }
        ensures board { maker.new.table_id ≡ maker.old.table_id }
        ensures maker { maker.new.me.0 ≡ record maker.old.me.0 { replica = replica + 1 } }
        ensures writer { result ≡ new_writer self.now replica }
    {
        let seat = self.table.shared.split_seat::<NextWriter>(maker);
        WriterSeat {
            replica: ReplicaId::new(replica),
            seat,
        }
    }

    /// The next reader's seat.
    fn next_reader(&self, maker: &mut Seat<(), Log>) -> ReaderSeat
        requires board { maker.old.table_id ≡ self.now }
        ensures board { maker.new.table_id ≡ maker.old.table_id }
        ensures reader { result ≡ new_reader self.now }
    {
        let seat = self.table.shared.split_seat::<NextReader>(maker);
        ReaderSeat { seat }
    }

    /// Raises the word of the seat's replica to this height, if the word is lower.
    pub fn publish(&self, seat: &mut WriterSeat, height: Height)
        requires { seat.old.board ≡ self.now }
        ensures height { seat.new ≡ record seat.old { height = max seat.old.height height } }
        ensures step { RaisedAtOnce seat.old.height seat.old.replica height seat.new.height }
    {
        let word = usize::from(seat.replica.number());
        let height = u64::from(height.number());
        self.table
            .shared
            .fetch_max::<ByRaising>(&mut seat.seat, word, height);
    }

    /// The height in the word of this replica.
    pub fn read(&self, seat: &mut ReaderSeat, replica: ReplicaId) -> u32
        requires board { seat.old.board ≡ self.now }
        requires replica { replica < replicas_of self.now }
        ensures seen { seat.new ≡ record seat.old { seen = seat.old.seen ++ (replica, result) ∷ [] } }
        ensures rises { IsTrue (rises_to result (heights_of replica seat.new.seen)) }
        // If the replica's writer's seat was handed back to this reader, it is the greatest height that was published
        // through that seat.
        ensures last { IsLast seat.old.closed replica result }
        ensures step { ReadAtOnce seat.old.seen replica result seat.new.seen }
    {
        let word = usize::from(replica.number());
        let found = self.table.shared.load::<ByReading>(&mut seat.seat, word);
        found as u32
    }

    /// The number of replicas.
    fn replicas(&self) -> u8
        ensures count { result ≡ replicas_of self.now }
        ensures some { 0 < result }
    {
        self.table.word_count() as u8
    }

    /// Reads the word of each replica, in order, and returns the least height that it read.
    pub fn least(&self, seat: &mut ReaderSeat) -> Height
        requires { seat.old.board ≡ self.now }
        ensures { IsLeastRead seat.old seat.new self.now result }
    {
        let mut least = u32::MAX;
        for replica in 0..self.replicas() {
            least = least.min(self.read(seat, ReplicaId::new(replica)));
        }
        Height::new(least)
    }

    /// The greatest height published through this seat.
    pub fn own(&self, seat: &mut WriterSeat) -> u32
        requires { seat.old.board ≡ self.now }
        ensures height { result ≡ seat.old.height }
        ensures same { seat.new ≡ seat.old }
    {
        let word = usize::from(seat.replica.number());
        let height = self.table.shared.load::<ByOwning>(&mut seat.seat, word);
        height as u32
    }

    /// Hands a writer's seat back to this reader, which from now on reads exactly what was published through that seat.
    pub fn hand_back(&self, reader: &mut ReaderSeat, writer: WriterSeat)
        requires reader { reader.old.board ≡ self.now }
        requires writer { writer.board ≡ self.now }
        ensures { reader.new ≡ record reader.old { closed = reader.old.closed ++ (writer.replica, writer.height) ∷ [] } }
    {
        let WriterSeat { replica: _, seat } = writer;
        self.table
            .shared
            .join_seat::<HandedBack>(&mut reader.seat, seat);
    }
}
