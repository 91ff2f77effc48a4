//! One replica: its history, and the one atomic step that changes it.
//!
//! A [`State`] takes an event, stores it with the reply of its core, and returns the index of the new entry. The core never reads
//! the history: it has what the rules need from it. The type of a `State` guarantees that the core is what the history makes of it,
//! and that the history is a replay: each entry is lawful after those before it, and each signature in a reply is verified.
//!
//! A caller makes a replica, passes events to it one by one, and reads each reply from the history:
//!
//! ```text
//! let config = Config::new(4, 1, AppKind::KvStore)?;
//! let signer = Signer::new(alloc, PARAMS, Identifier::new([7; 16]), Seed::new([9; 32]))?;
//! let ring = KeyRing::new(vec![in alloc; signer.public()]?);
//! let app = AnyKind::new(alloc, config.kind);
//! let id = ReplicaId::new(0);
//! let mut state = State::new(alloc, config, id, signer, ring, app, [random, random])?;
//!
//! state.apply(Event::Submit(Bytes::from_static(b"a=1")))?;
//! state.apply(Event::Propose(Height::new(1)))?;
//! let index = state.apply(Event::RoundEnd)?; // the first round opens, and the replica reports on height 1
//! let Some(entry) = state.entry(index) else { return Ok(None) };
//! if let ReplyView::RoundEnded(Ok(ended)) = entry.reply() {
//!     for index in 0..ended.len() {
//!         let Some(sent) = ended.frame(index) else { unreachable!() };
//!         send(sent.addressee, sent.frame); // to the network
//!     }
//! }
//!
//! state.apply(Event::Deliver(bytes))?; // a frame from the network
//! let decision = state.decided_at(Height::new(1)); // the batch, or None as long as the replica has not decided
//! ```
//!
//! The test `a_replica_alone_reports_and_decides_nothing` in `replica_tests/src/step_tests.rt` makes these calls, except two: `answer`
//! in `program/src/replica.rt` delivers a frame and reads the reply, and `sent_at` in `replica_turns/src/sent.rt` collects the frames.
#![tactic(auto)]

mod entry_view;
mod event_view;
mod lock;
mod reply_view;
mod snapshot;
mod state;
mod stored_entry;
mod stored_string;
mod string_table;
mod taking;

pub use entry_view::EntryView;
pub use event_view::EventView;
pub use lock::LockedReplica;
pub use reply_view::{ReplyView, RoundEndView, SentView};
pub use snapshot::Snapshot;
pub use state::{MAX_ENTRIES, State};
pub use string_table::StringTable;
