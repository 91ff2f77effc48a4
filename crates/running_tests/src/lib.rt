//! Tests of what runs in threads: a cluster, and what runs beside its replicas: the commit board, inboxes, the pacer and client sessions.
#![tactic(auto)]

#[cfg(test)]
mod audit_tests;
#[cfg(test)]
mod board_tests;
#[cfg(test)]
mod board_thread_tests;
#[cfg(test)]
mod cluster_tests;
#[cfg(test)]
mod following;
#[cfg(test)]
mod history_gate;
#[cfg(test)]
mod inbox_tests;
#[cfg(test)]
mod inbox_thread_tests;
#[cfg(test)]
mod key_tests;
#[cfg(test)]
mod lock_tests;
#[cfg(test)]
mod meeting_gate;
#[cfg(test)]
mod opening_tests;
#[cfg(test)]
mod pacer_tests;
#[cfg(test)]
mod quiet_clock;
#[cfg(test)]
mod replicas;
#[cfg(test)]
mod seated;
#[cfg(test)]
mod session_streams;
#[cfg(test)]
mod session_targets;
#[cfg(test)]
mod session_tests;
#[cfg(test)]
mod state_tests;
#[cfg(test)]
mod tcp_tests;
#[cfg(test)]
mod turn_tests;
#[cfg(test)]
mod verifier_tests;
#[cfg(test)]
mod waiting_tests;
