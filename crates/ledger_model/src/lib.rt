//! The plain types of the replicated ledger, and the definitions that every other crate's contracts cite.
#![tactic(auto)]

mod addressing;
mod batch;
mod config;
mod event;
mod fault;
mod history;
mod ids;
mod ledger;
mod lookup;
mod opening;
mod order;
mod quorums;
mod reply;
mod rounds;
mod statement;
mod version;
mod world;

pub use addressing::goes_to;
pub use batch::{Batch, BatchFault, Key, KeyFault, Tx, TxFault};
pub use config::{AppKind, AppKinds, Config, ConfigFault};
pub use event::Event;
pub use fault::ApplyFault;
pub use history::{Entries, Entry, History};
pub use ids::{Height, Phase, ReplicaId};
pub use ledger::Ledger;
pub use lookup::{has_history, history_of};
pub use opening::is_opened;
pub use order::are_ascending;
pub use reply::{
    Addressee, BlockResult, Codes, Ignored, LastRound, NotHeld, NothingDecided, ProposeRefusal,
    QueryAnswer, Reply, RetireRefusal, RoundEnded, Sent, SentFrames, SubmitRefusal,
};
pub use rounds::{Place, has_phase, has_place, phase_of, place_of};
pub use statement::{
    Ack, Batches, Lock, LockProof, Report, Signature, SignedReport, SignedStatement, Statement,
};
pub use version::Version;
pub use world::{WorldRefusal, WorldReply, WorldStep};
