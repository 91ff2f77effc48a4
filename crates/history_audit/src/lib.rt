//! Audits: whether histories that were handed in are those of one ledger, and if they aren't, which replica's entry shows it.
#![tactic(auto)]

mod auditing;
mod counting;
mod fault;
mod following;
mod kind_audit;
mod receipt;
mod sending;
mod sent_table;
mod unsent;

pub use auditing::audit;
pub use counting::are_of_a_quorum;
pub use fault::AuditFault;
pub use kind_audit::audited;
pub use receipt::receipt_holds;
