//! The settings of one run of the program: what its subcommand is told.
use crate::audit_settings::AuditSettings;
use crate::cluster_seed::ClusterSeed;
use crate::cluster_settings::{ClusterSettings, ServeSettings};
use crate::deliver_settings::DeliverSettings;
use crate::draw_settings::DrawSettings;
use crate::sign_settings::SignSettings;
use crate::simulate_settings::SimulateSettings;

/// The settings of the subcommand that the words of a command line name.
#[derive(Drop)]
pub enum Settings {
    Sign(SignSettings),
    Deliver(DeliverSettings),
    Simulate(SimulateSettings),
    Cluster(ClusterSettings),
    Serve(ServeSettings),
    Audit(AuditSettings),
    Draw(DrawSettings),
    /// Of `abft keys`: the cluster whose public file is written.
    Keys(ClusterSeed),
}
