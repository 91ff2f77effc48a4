//! Tests of the applications, the executor of blocks and the pool of transactions together.
#![tactic(auto)]

#[cfg(test)]
mod box_tests;
#[cfg(test)]
mod kind_tests;
#[cfg(test)]
mod pool_tests;
#[cfg(test)]
mod tests;
#[cfg(test)]
mod trace_tests;
#[cfg(test)]
mod traced;
