//! What the test crates build: values, statements and their bytes, and a cluster with a key pair for each replica.
#![tactic(auto)]

mod acks;
mod batches;
mod cluster;
mod fault;
mod reports;
mod spelled;

pub use acks::ack;
pub use batches::{batch, tx, value, values};
pub use cluster::TestCluster;
pub use fault::BuildFault;
pub use reports::{ReportFields, naming, report, signed_report};
pub use spelled::{ack_bytes, lock_bytes, report_bytes, value_bytes};
