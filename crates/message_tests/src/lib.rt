//! Tests of signed messages: one-time signatures, trees over them, key pairs that use each leaf once, and checks of signatures, against
//! RFC 8554; and of values, statements and frames, and of their bytes.
#![tactic(auto)]

#[cfg(test)]
mod cursor_tests;
#[cfg(test)]
mod frame_tests;
#[cfg(test)]
mod lane_tests;
#[cfg(test)]
mod ots_tests;
#[cfg(test)]
mod pool_tests;
#[cfg(test)]
mod priming_tests;
#[cfg(test)]
mod reader_tests;
#[cfg(test)]
mod record_tests;
#[cfg(test)]
mod ring_tests;
#[cfg(test)]
mod spellings;
#[cfg(test)]
mod statement_tests;
#[cfg(test)]
mod tree_tests;
#[cfg(test)]
mod value_tests;
#[cfg(test)]
mod vectors;
#[cfg(test)]
mod verifier_tests;
#[cfg(test)]
mod version_tests;
