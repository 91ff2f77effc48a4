//! `abft simulate` over streams.
use crate::streams::{Case, Sink, Source};
use app_kinds::AnyKind;
use cluster_setup::SimulateSettings;
use program::simulate;
use std::alloc::Global;
use std::random::RandomSource;
use std::test::Fail;

/// A scenario of two lines, each of which prints one.
const TEXT: &[u8] = b"config 4 1 1\nend 0\nexecute 0\n";

/// How `abft simulate` finds that the text of a stream ended, or the fault.
fn outcome<S: RandomSource>(
    source: &S,
    alloc: Global,
    case: &Case<'_>,
    output: &mut Sink,
) -> Result<String, Fail> {
    let settings = SimulateSettings {
        seed: [0; 32],
        histories: false,
    };
    let mut reader = Source::new(case.text, case.fails);
    Ok(
        match simulate::<AnyKind, _, _, _>(source, alloc, &settings, &mut reader, output) {
            Ok(end) => format!(in alloc; "{end:?}")?,
            Err(fault) => format!(in alloc; "{fault}")?,
        },
    )
}

/// Whether `abft simulate` does with the stream what the case says.
fn plays<S: RandomSource>(source: &S, alloc: Global, case: &Case<'_>) -> Result<bool, Fail> {
    let mut output = Sink::new(alloc, case.room);
    let outcome = outcome(source, alloc, case, &mut output)?;
    Ok(case.is(&outcome, &output))
}

/// A scenario that is played, one whose second line is only partly written, one that cannot be read whole, and one with a bad line.
const SCENARIOS: [Case<'static>; 4] = [
    Case {
        text: TEXT,
        fails: false,
        room: 99,
        outcome: "Whole",
        output: b"end 0 1 sent 0\nexecute 0 nothing\n",
        writes: 2,
    },
    Case {
        text: TEXT,
        fails: false,
        room: 20,
        outcome: "error: standard output: failed to write whole buffer",
        output: b"end 0 1 sent 0\nexecu",
        writes: 3,
    },
    Case {
        text: TEXT,
        fails: true,
        room: 99,
        outcome: "error: standard input: timed out",
        output: b"",
        writes: 0,
    },
    Case {
        text: b"config 4 1 1\nend 0\nend 00\n",
        fails: false,
        room: 99,
        outcome: "BadLine(3)",
        output: b"line 3 bad\n",
        writes: 1,
    },
];

#[test]
fn each_line_is_one_write_until_the_scenario_stops(rt: HostRuntime) -> Result<(), Fail> {
    for case in &SCENARIOS {
        assert!(rt;
            plays(&rt, rt.alloc(), case)?,
            "another outcome: {}",
            case.outcome
        );
    }
    Ok(())
}
