//! What a program's `main` calls: the subcommands of its application, over the streams of its process.
//!
//! A program is one call, at the type of its application: see `main` of `abft`, and of `notary`.
#![tactic(auto)]

mod key_files;
mod process;

pub use process::{StandardStreams, run_process};
