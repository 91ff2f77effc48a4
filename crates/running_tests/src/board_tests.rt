//! Heights that are published and read within one thread, one replica's or the least of all.
ghost use Rattle.std.specs.Prelude.{◌≡◌, ℕ, ◌<◌, Some, slice_get, vec_len};
ghost use Rattle.commit_board.specs.Seats.{replicas_of, new_writer, new_reader};

use commit_board::{Board, ReaderSeat, WriterSeat};
use ledger_model::{AppKind, Config, Height, ReplicaId};
use std::test::Fail;

/// The height of a seat's replica, as its owner and as a reader sees it.
fn height(board: &Board, reader: &mut ReaderSeat, writer: &mut WriterSeat) -> (u32, u32)
    requires reader { reader.old.board ≡ board.now }
    requires writer { writer.old.board ≡ board.now }
    requires replica { writer.old.replica < replicas_of board.now }
    ensures reader { reader.new.board ≡ reader.old.board }
    ensures writer { writer.new ≡ writer.old }
{
    let own = board.own(writer);
    (own, board.read(reader, writer.replica()))
}

/// The heights of a seat's replica, as its owner and as a reader sees it: before one is published, after 7, and after
/// 5. Then as the reader sees it: of that replica after the seat is handed back, and of replica 1.
fn heights(board: &Board, reader: &mut ReaderSeat, mut writer: WriterSeat) -> [(u32, u32); 4]
    requires reader { reader.old.board ≡ board.now }
    requires writer { writer.board ≡ board.now }
    requires replica { writer.replica < replicas_of board.now }
    requires two { 1 < replicas_of board.now }
{
    let replica = writer.replica();
    let before = height(board, reader, &mut writer);
    board.publish(&mut writer, Height::new(7));
    let behind_seven = height(board, reader, &mut writer);
    board.publish(&mut writer, Height::new(5));
    let behind_five = height(board, reader, &mut writer);
    board.hand_back(reader, writer);
    let by_reader = (
        board.read(reader, replica),
        board.read(reader, ReplicaId::new(1)),
    );
    [before, behind_seven, behind_five, by_reader]
}

/// Whether there are four writers' seats and one reader's seat, and what is published through that of replica 2 is read.
fn is_read(board: &Board, writing: &mut Vec<WriterSeat>, reading: &mut Vec<ReaderSeat>) -> bool
    requires four { vec_len writing.old ≡ 4 }
    requires writers { (k : ℕ) → k < 4 → slice_get writing.old.items k ≡ Some (new_writer board.now k) }
    requires one { vec_len reading.old ≡ 1 }
    requires readers { (k : ℕ) → k < 1 → slice_get reading.old.items k ≡ Some (new_reader board.now) }
    requires board { replicas_of board.now ≡ 4 }
{
    let are_so_many = writing.len() == 4 && reading.len() == 1;
    let _last = writing.pop();
    let writer = writing.pop().unwrap();
    let is_third = writer.replica().number() == 2;
    let found = heights(board, &mut reading[0], writer);
    are_so_many && is_third && found == [(0, 0), (7, 7), (7, 7), (7, 0)]
}

#[test]
fn a_height_is_read_as_published(rt: HostRuntime) -> Result<(), Fail> {
    let config = Config::new(4, 1, AppKind::Counter)?;
    let (board, mut writing, mut reading) = Board::new(rt.alloc(), &config, 1)?;
    assert!(rt; is_read(&board, &mut writing, &mut reading));
    Ok(())
}

/// The seat after this height is published through it.
fn raised(board: &Board, mut writer: WriterSeat, height: u32) -> WriterSeat
    requires { writer.board ≡ board.now }
    ensures { result.board ≡ writer.board }
{
    board.publish(&mut writer, Height::new(height));
    writer
}

/// The least height that is read before and after 8 is published through this seat.
fn around_eight(board: &Board, reader: &mut ReaderSeat, writer: WriterSeat) -> (u32, u32)
    requires reader { reader.old.board ≡ board.now }
    requires writer { writer.board ≡ board.now }
{
    let before = board.least(reader).number();
    let _raised = raised(board, writer, 8);
    (before, board.least(reader).number())
}

/// The least height that is read after the four writers publish 7, 5, 9 and 6, and after the second then publishes 8.
fn leasts(board: &Board, reader: &mut ReaderSeat, writing: &mut Vec<WriterSeat>) -> (u32, u32)
    requires four { vec_len writing.old ≡ 4 }
    requires writers { (k : ℕ) → k < 4 → slice_get writing.old.items k ≡ Some (new_writer board.now k) }
    requires reader { reader.old.board ≡ board.now }
{
    let _fourth = raised(board, writing.pop().unwrap(), 6);
    let _third = raised(board, writing.pop().unwrap(), 9);
    let second = raised(board, writing.pop().unwrap(), 5);
    let _first = raised(board, writing.pop().unwrap(), 7);
    around_eight(board, reader, second)
}

/// Whether the least of 7, 5, 9 and 6 is read, and 6 once the lowest is raised.
fn is_least_read(
    board: &Board,
    writing: &mut Vec<WriterSeat>,
    reading: &mut Vec<ReaderSeat>,
) -> bool
    requires four { vec_len writing.old ≡ 4 }
    requires writers { (k : ℕ) → k < 4 → slice_get writing.old.items k ≡ Some (new_writer board.now k) }
    requires one { vec_len reading.old ≡ 1 }
    requires readers { (k : ℕ) → k < 1 → slice_get reading.old.items k ≡ Some (new_reader board.now) }
{
    leasts(board, &mut reading[0], writing) == (5, 6)
}

#[test]
fn the_least_height_rises_with_the_lowest_replica(rt: HostRuntime) -> Result<(), Fail> {
    let config = Config::new(4, 1, AppKind::Counter)?;
    let (board, mut writing, mut reading) = Board::new(rt.alloc(), &config, 1)?;
    assert!(rt; is_least_read(&board, &mut writing, &mut reading));
    Ok(())
}
