//! Tests of HTTP: what the head of a request asks, and the bytes of replies.
#![tactic(auto)]

#[cfg(test)]
mod expected;
#[cfg(test)]
mod reply_tests;
#[cfg(test)]
mod request_tests;
#[cfg(test)]
mod session_streams;
#[cfg(test)]
mod session_targets;
#[cfg(test)]
mod session_tests;
