//! What anyone may know of a cluster.
ghost use Rattle.std.specs.Prelude.{◌≡◌, length, All};
ghost use Rattle.cluster_setup.specs.KeySizes.{HasSizes};

use key_ring::KeyRing;
use ledger_model::Config;
use lm_ots::Params;

/// What anyone may know of a cluster: its configuration, the parameter set of its keys, and the public key of each replica.
#[derive(Drop)]
pub struct PublicCluster {
    pub config: Config,
    /// The parameter set that all keys are of.
    pub params: Params,
    /// The public keys, one for each replica.
    pub ring: KeyRing,
    ghost counted: { length ring ≡ config.replicas },
    ghost sized: { All (HasSizes params) ring },
}
