//! The cluster that keys are made for: its configuration, and the seed of its keys.
use ledger_model::Config;
use lm_ots::Params;

/// Everything that a cluster's replicas are made from: its size and application, the parameter set of its keys, and the
/// seed of those keys.
#[derive(Drop)]
pub struct ClusterSeed {
    pub config: Config,
    pub params: Params,
    pub seed: [u8; 32],
}
