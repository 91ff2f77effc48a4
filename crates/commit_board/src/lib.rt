//! The commit board: one word for each replica, which its worker raises and any thread reads.
//!
//! [`Board::new`] returns the board, a writer's seat for each replica and the readers' seats. [`Board::publish`] raises
//! the word of the writer's replica to a height, with one atomic maximum. [`Board::own`] loads that word,
//! [`Board::read`] loads the word of any replica, and [`Board::least`] loads those of all replicas, one by one, and
//! returns the least. [`Board::hand_back`] hands a writer's seat back to a reader. No call waits or allocates memory,
//! except `new`, which allocates.
//!
//! Proved for every schedule of the threads: `own` returns the greatest height that was published through its seat; the heights
//! that a reader reads of one replica never fall; once a writer's seat is handed back to a reader, the reader reads exactly
//! what was published through that seat. Only tested: that a height which is read before then was published.
//!
//! Not promised: when a reader sees a published height, and an order between the words of two replicas.
#![tactic(auto)]

mod board;
mod log;
mod seats;

pub use board::Board;
pub use seats::{ReaderSeat, WriterSeat};
