//! What the words of a command line name a file for, or ask to be drawn.
use cluster_setup::PublicCluster;

/// What the words of a command line name a file for, or ask to be drawn: who calls [`settings`](crate::settings) finds it, as
/// [`key_source`](crate::key_source) says.
#[derive(Drop)]
pub struct GivenKeys {
    /// The seed that was read from the file of `--seed-file`, or drawn for `--seed random`.
    pub seed: Option<[u8; 32]>,
    /// The cluster that was read from the file of `--cluster`.
    pub cluster: Option<PublicCluster>,
}
