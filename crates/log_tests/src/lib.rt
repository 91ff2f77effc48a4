//! Tests of logs as bytes: what is written, compared with values that Python's hashlib computed, and what is read of
//! logs that were cut or changed.
#![tactic(auto)]

#[cfg(test)]
mod damage_tests;
#[cfg(test)]
mod vectors;
#[cfg(test)]
mod walks;
#[cfg(test)]
mod writing_tests;
