//! Tests of agreement at a height: tallies, proper values, locks, the choice and the decision, and whole heights.
#![tactic(auto)]

#[cfg(test)]
mod callers;
#[cfg(test)]
mod cluster_tests;
#[cfg(test)]
mod finds_tests;
#[cfg(test)]
mod frames;
#[cfg(test)]
mod height_tests;
#[cfg(test)]
mod lock_tests;
#[cfg(test)]
mod phase_tests;
#[cfg(test)]
mod proper_tests;
#[cfg(test)]
mod read_reports;
#[cfg(test)]
mod replica;
#[cfg(test)]
mod row_tests;
#[cfg(test)]
mod table_tests;
#[cfg(test)]
mod tally_tests;
