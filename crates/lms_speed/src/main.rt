//! The program `lms_speed`: checks and measures the keys, and answers for them line by line.
#![tactic(auto)]

mod answering;
#[cfg(test)]
mod block_tests;
mod blocks;
mod checks;
mod output;
mod parsing;
mod rates;
mod request;
mod running;
mod table;
mod timing;
mod work;
mod wrong;

use running::run;
use std::env;
use std::io::{self, BufReader};
use std::process::ExitCode;

/// The exit status if the words themselves could not be read.
const STOPPED: u8 = 3;

fn main(rt: HostRuntime) -> ExitCode {
    match run_host(&rt) {
        Ok(status) => ExitCode::from(status),
        Err(_) => ExitCode::from(STOPPED),
    }
}

/// Runs the program on the words, the streams and the clock of the process.
fn run_host(rt: &HostRuntime) -> io::Result<u8> {
    let alloc = rt.alloc();
    let words: Vec<String> = env::args(rt)?.collect(alloc)?;
    let mut reader = BufReader::new(alloc, rt.reader())?;
    let mut writer = rt.stdout();
    let mut faults = rt.stderr();
    Ok(run(rt, alloc, &words, &mut reader, &mut writer, &mut faults))
}
