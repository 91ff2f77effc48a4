//! The program `abft`: a Byzantine fault tolerant replicated ledger, of one of three applications.
#![tactic(auto)]

use app_kinds::AnyKind;
use std::process::ExitCode;
use whole_program::{StandardStreams, run_process};

fn main(rt: HostRuntime) -> ExitCode {
    let streams = StandardStreams {
        input: rt.stdin(),
        output: rt.stdout(),
        errors: rt.stderr(),
    };
    ExitCode::from(run_process::<AnyKind, _>(&rt, streams))
}
