//! Tests of one replica and its atomic step; and of histories of the worked runs, which are followed entry by entry, as
//! they are and with a changed reply. Histories are also read back from their bytes.
#![tactic(auto)]

#[cfg(test)]
mod audit_tests;
#[cfg(test)]
mod changing;
#[cfg(test)]
mod ending_changes;
#[cfg(test)]
mod entry_tests;
#[cfg(test)]
mod fault;
#[cfg(test)]
mod following;
#[cfg(test)]
mod following_tests;
#[cfg(test)]
mod frame_tests;
#[cfg(test)]
mod frames;
#[cfg(test)]
mod full_history_tests;
#[cfg(test)]
mod handing;
#[cfg(test)]
mod history_tests;
#[cfg(test)]
mod memory_tests;
#[cfg(test)]
mod picture_tests;
#[cfg(test)]
mod playing;
#[cfg(test)]
mod refusing;
#[cfg(test)]
mod scripts;
#[cfg(test)]
mod silence_tests;
#[cfg(test)]
mod step_tests;
#[cfg(test)]
mod string_tests;
#[cfg(test)]
mod version_tests;
#[cfg(test)]
mod world_tests;
