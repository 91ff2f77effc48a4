//! Two threads publish heights while two others read them: what is read never falls, and reaches what was published.
ghost use Rattle.std.specs.Prelude.{◌≡◌, ◌<◌};
ghost use Rattle.commit_board.specs.Seats.{replicas_of};

use commit_board::{Board, ReaderSeat, WriterSeat};
use ledger_model::{AppKind, Config, Height, ReplicaId};
use std::sync::Wait;
use std::test::Fail;
use std::thread;
use std::thread::Threads;

/// The last height that each writer publishes, from 1 on.
const LAST: u32 = 100_000;

/// Publishes all heights. Returns whether each was the own height after it.
fn publishes(board: &Board, mut seat: WriterSeat) -> bool
    requires { seat.board ≡ board.now }
{
    for height in 1..LAST + 1 {
        board.publish(&mut seat, Height::new(height));
        if board.own(&mut seat) != height {
            return false;
        }
    }
    true
}

/// Whether two writers do so in two threads.
fn both_publish<R: Threads + Wait + Sync>(
    rt: &R,
    board: &Board,
    first: WriterSeat,
    second: WriterSeat,
) -> bool
    requires first { first.board ≡ board.now }
    requires second { second.board ≡ board.now }
{
    let (one, two) = thread::join(
        rt,
        move || -> bool
            requires { first.board ≡ board.now }
        { publishes(board, first) },
        move || -> bool
            requires { second.board ≡ board.now }
        { publishes(board, second) },
    );
    one && two
}

/// Reads a replica's height. Returns whether it is at least the one before, and was published.
fn reads(board: &Board, seat: &mut ReaderSeat, replica: u8, before: &mut u32) -> bool
    requires board { seat.old.board ≡ board.now }
    requires replica { replica < replicas_of board.now }
    ensures { seat.new.board ≡ seat.old.board }
{
    let height = board.read(seat, ReplicaId::new(replica));
    let rises = *before <= height && height <= LAST;
    *before = height;
    rises
}

/// Reads the heights of both writers until they are the last.
fn follows<R: Wait>(rt: &R, board: &Board, mut seat: ReaderSeat) -> bool
    requires board { seat.board ≡ board.now }
    requires two { 3 < replicas_of board.now }
{
    let (mut first, mut second) = (0, 0);
    for _ in rt.forever() {
        if first == LAST && second == LAST {
            return true;
        }
        if !reads(board, &mut seat, 3, &mut first) {
            return false;
        }
        if !reads(board, &mut seat, 2, &mut second) {
            return false;
        }
        thread::yield_now();
    }
    unreachable!()
}

/// Whether two readers, each in a thread, read the heights of both writers until they are the last.
fn both_follow<R: Threads + Wait + Sync>(
    rt: &R,
    board: &Board,
    first: ReaderSeat,
    second: ReaderSeat,
) -> bool
    requires two { 3 < replicas_of board.now }
    requires first { first.board ≡ board.now }
    requires second { second.board ≡ board.now }
{
    let (one, two) = thread::join(
        rt,
        move || -> bool
            requires { (first.board ≡ board.now) × (3 < replicas_of board.now) }
        { follows(rt, board, first) },
        move || -> bool
            requires { (second.board ≡ board.now) × (3 < replicas_of board.now) }
        { follows(rt, board, second) },
    );
    one && two
}

#[test]
fn two_threads_publish_and_two_others_read(rt: HostRuntime) -> Result<(), Fail> {
    let config = Config::new(4, 1, AppKind::Counter)?;
    let (board, mut writing, mut reading) = Board::new(rt.alloc(), &config, 2)?;
    let (a, b) = (writing.pop().unwrap(), writing.pop().unwrap());
    let (c, d) = (reading.pop().unwrap(), reading.pop().unwrap());
    let board = &board;
    let handle = &rt;
    let (published, followed) = thread::join(
        &rt,
        move || -> bool
            requires { (a.board ≡ board.now) × (b.board ≡ board.now) }
        { both_publish(handle, board, a, b) },
        move || -> bool
            requires { (c.board ≡ board.now) × (d.board ≡ board.now) × (3 < replicas_of board.now) }
        { both_follow(handle, board, c, d) },
    );
    assert!(rt; published && followed);
    Ok(())
}
