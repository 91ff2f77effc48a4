//! The settings of `abft draw`.
use crate::known_cluster::KnownCluster;

/// The settings of `abft draw`: the cluster whose histories are read, and the part of its run that is drawn.
#[derive(Drop)]
pub struct DrawSettings {
    pub cluster: KnownCluster,
    /// The one height that is drawn; 0 for all heights.
    pub height: u32,
    /// The first round that is drawn; round 0 is the time before the first round.
    pub first: u32,
    /// The last round that is drawn.
    pub last: u32,
}
