//! Restarts are invisible: a run in which replicas stop, and go on from what their logs have, is a run in which none stops. Proved from the
//! definitions alone.
#![tactic(auto)]

pub mod laws;
