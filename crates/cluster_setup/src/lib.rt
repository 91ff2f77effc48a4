//! What a run is set up with: the key pairs of a cluster's replicas, all from one seed, the ring of their public keys, and the settings of
//! each subcommand as plain values.
#![tactic(auto)]

mod all;
mod audit_settings;
mod cluster_seed;
mod cluster_settings;
mod deliver_settings;
mod derivation;
mod draw_settings;
mod keys;
mod known_cluster;
mod public_cluster;
mod publishing;
mod settings;
mod sign_settings;
mod simulate_settings;

pub use all::{ClusterKeys, all_keys, all_keys_in_parallel};
pub use audit_settings::{AuditSettings, Receipt};
pub use cluster_seed::ClusterSeed;
pub use cluster_settings::{ClusterSettings, ServeSettings};
pub use deliver_settings::DeliverSettings;
pub use derivation::key_pair;
pub use draw_settings::DrawSettings;
pub use keys::signer_and_ring;
pub use known_cluster::KnownCluster;
pub use public_cluster::PublicCluster;
pub use publishing::public_part;
pub use settings::Settings;
pub use sign_settings::{SignSettings, What};
pub use simulate_settings::SimulateSettings;
