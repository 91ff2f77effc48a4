//! The laws: what holds of every run, proved from the definitions alone, and worked examples of the definitions.
#![tactic(auto)]

pub mod examples;
pub mod laws;
pub mod plain_run;
pub mod vacuity;
