//! Histories as bytes, written and read back.
//!
//! A history is encoded as its replica, the number of its entries, and each entry: its event and the reply.
//! `specs/Histories` defines the encoding. Numbers are big-endian. A count that doesn't fit is written modulo 2^8, 2^16
//! or 2^32, but no history of a replica has such a count.
//!
//! `specs/HistoryReading` defines what bytes read as, `specs/HistoryLaws` has the laws. What is read shares the bytes of the input where it
//! is a frame, a transaction or a value; only numbers, keys and batches are copied. Reading takes time linear in the bytes, and nothing is
//! reserved by a count. A version of frames limits batches and frames.
#![tactic(auto)]

mod answers;
mod batches;
mod counts;
mod entries;
mod entry_reading;
mod event_reading;
mod events;
mod fault;
mod histories;
mod input;
mod refusals;
mod replies;
mod reply_reading;
mod sent_frames;

pub use entries::history_bytes;
pub use fault::HistoryFault;
pub use histories::read_histories;
