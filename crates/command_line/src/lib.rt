//! The command line of `abft`: the settings that its words give. This is the only crate that reads words with clap.
#![tactic(auto)]

mod audit_grammar;
mod draw_grammar;
mod given_keys;
mod grammar;
mod key_sources;
mod keys_grammar;
mod known_clusters;
mod options;
mod receipts;
mod refused_words;
mod running_grammar;
mod seed_words;
mod seeds;
mod settings_of_words;
mod shared_arguments;
mod subcommand;
mod usage_fault;

pub use given_keys::GivenKeys;
pub use key_sources::{KeySource, key_source};
pub use seed_words::SeedWords;
pub use seeds::seed_of_bytes;
pub use settings_of_words::settings;
pub use usage_fault::{Input, UsageFault};
