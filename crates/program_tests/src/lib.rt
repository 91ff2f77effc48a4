//! Tests of scenario texts, of words and the settings that they give, of keys and frames; of the program on its words:
//! its exit statuses, and what it writes about faults; of its subcommands over streams, of which some fail; and of random keys.
//! `tests/end_to_end.sh` tests the built program.
#![tactic(auto)]

#[cfg(test)]
mod audit_words;
#[cfg(test)]
mod delivery_tests;
#[cfg(test)]
mod fault_tests;
#[cfg(test)]
mod key_tests;
#[cfg(test)]
mod public_file_tests;
#[cfg(test)]
mod random_tests;
#[cfg(test)]
mod running_words;
#[cfg(test)]
mod scenario_tests;
#[cfg(test)]
mod seed_tests;
#[cfg(test)]
mod setting_lines;
#[cfg(test)]
mod setting_tests;
#[cfg(test)]
mod streams;
#[cfg(test)]
mod text_command_tests;
#[cfg(test)]
mod text_printing_tests;
#[cfg(test)]
mod text_setup_tests;
#[cfg(test)]
mod texts;
#[cfg(test)]
mod word_tests;
