//! Client sessions over any reader and writer: one reply for each request, determined by what the replica answered.
//!
//! A server implements [`Targets`] for its replicas, and calls [`serve`] for each client with a new [`Session`]:
//!
//! ```text
//! impl Targets for Fake {
//!     ghost replicas = { λ _. 4 };
//!     ghost asks = { λ _ _ _. Unit {0} }; // the contract of `serve` then says nothing about the exchanges
//!
//!     fn count(&self) -> usize {
//!         4
//!     }
//!     fn height(&mut self, replica: ReplicaId) -> Height {
//!         self.asked = self.asked.saturating_add(1);
//!         Height::new(self.height_of(replica))
//!     }
//!     // .. and `submit`, `query` and `block`
//! }
//!
//! let mut targets = Fake::new(alloc, [3, 3, 1, 3]);
//! let mut session = Session::new(); // talks to replica 0
//! let (mut input, mut output) = (CountedStream::new(input), CountedStream::new(output));
//! match serve(alloc, &mut input, &mut output, &mut session, &mut targets) {
//!     Ok(SessionEnd::Clean) => {} // the client has closed its side after a whole request
//!     Ok(SessionEnd::Cut) => {} // .. within a request
//!     Err(SessionFault::Read(_)) => {} // a stream failed
//!     Err(SessionFault::Write(_)) => {}
//!     Err(_) => {} // memory ran out, or there were 2^64 - 1 requests
//! }
//! ```
//!
//! The tests in `running_tests/src/session_tests.rt` run this code over streams in memory (`ends` and `end_of`); `Fake` is in
//! `session_targets.rt` there. `CountedStream` adds the counts of failures to any reader or writer of std.
#![tactic(auto)]

mod answer;
mod counted_stream;
mod failure_count;
mod receiving;
mod reply_buffer;
mod request;
mod serving;
mod session;
mod session_end;
mod streams;
mod targets;
mod transfers;
mod tries;

pub use counted_stream::CountedStream;
pub use serving::serve;
pub use session::Session;
pub use session_end::{SessionEnd, SessionFault};
pub use streams::{SessionReader, SessionWriter};
pub use targets::Targets;
pub use transfers::send;
