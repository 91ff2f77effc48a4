//! The file of a cluster that anyone may have: its configuration and the public keys of its replicas, as TOML. An auditor reads it, and
//! needs no secret.
//!
//! [`text_of`] writes a [`PublicCluster`](cluster_setup::PublicCluster), [`read`] reads one, and says what is wrong with a text that describes none. `docs/FORMATS.md`,
//! "A cluster's file", has the format.
#![tactic(auto)]

mod fault;
mod key_reading;
pub mod laws;
mod reading;
mod table_reading;
#[cfg(test)]
mod tests;
mod writing;

pub use fault::ClusterFileFault;
pub use reading::read;
pub use writing::text_of;
