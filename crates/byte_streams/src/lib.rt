//! Bytes that are written to streams which may fail, what a fault leaves of them, and the standard streams of a program with what stops it.
#![tactic(auto)]

mod printing;
mod program_fault;
mod random_key;
mod resource;
mod standard_streams;
mod writing;

pub use printing::{complain, flush_output, print, write_output};
pub use program_fault::{ProgramFault, STOPPED};
pub use random_key::new_random_key;
pub use resource::Resource;
pub use standard_streams::require_open;
pub use writing::write_whole;
