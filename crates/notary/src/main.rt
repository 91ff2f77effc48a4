//! The program `notary`: a ledger of a register of documents. It has the subcommands of `abft`.
#![tactic(auto)]

use notary_app::Notary;
use std::process::ExitCode;
use whole_program::{StandardStreams, run_process};

fn main(rt: HostRuntime) -> ExitCode {
    let streams = StandardStreams {
        input: rt.stdin(),
        output: rt.stdout(),
        errors: rt.stderr(),
    };
    ExitCode::from(run_process::<Notary, _>(&rt, streams))
}
