//! `abft simulate`: reads a scenario, and then plays it.
ghost use Rattle.std.specs.Prelude.{◌≡◌, ◌++◌, codes, decimal, MatchResult, IfErr};
ghost use Rattle.byte_streams.specs.Writing.{Writes};
ghost use Rattle.byte_streams.specs.Faults.{IsMemoryOrAsked};
ghost use Rattle.program.specs.Simulating.{PlaysText, PlaysTextSome, bad_line};

use crate::playing::play;
use crate::scenario_input::{ScenarioInput, read_scenario};
use crate::text_end::TextEnd;
use app_states::Opening;
use byte_streams::{ProgramFault, write_output};
use cluster_setup::SimulateSettings;
use std::alloc::Global;
use std::io::{Read, Write};
use std::random::RandomSource;

/// Writes the line with the number of a bad line.
fn print_bad_line<W: Write>(alloc: Global, writer: &mut W, number: u32) -> Result<(), ProgramFault>
    ensures written { Writes result (W.contents writer.old) (W.contents writer.new) (bad_line number) }
    ensures fault { IfErr result IsMemoryOrAsked }
{
    let line = format!(in alloc; "line {number} bad\n")?;
    write_output(writer, line.as_bytes())
}

/// Plays the scenario of a stream, and writes either its lines, or the histories at its end. A text with a bad line is
/// not played; its number is written. A text that is too large for a scenario is not read further than needed to know
/// that. The random bytes are the keys of the replicas' hashes.
pub fn simulate<A: Opening, S: RandomSource, R: Read, W: Write>(
    source: &S,
    alloc: Global,
    settings: &SimulateSettings,
    reader: &mut R,
    writer: &mut W,
) -> Result<TextEnd, ProgramFault>
    ensures plays { MatchResult result
        (λ end. PlaysText A.words.kinds A.meaning settings.now end (R.remaining reader.old) (R.remaining reader.new) (W.contents writer.old)
        (W.contents writer.new))
        (λ _. PlaysTextSome A.words.kinds A.meaning settings.now (R.remaining reader.old) (R.remaining reader.new) (W.contents writer.old)
        (W.contents writer.new)) }
    ensures fault { IfErr result IsMemoryOrAsked }
{
    match read_scenario::<A, R>(alloc, reader)? {
        ScenarioInput::Scenario(scenario) => {
            play::<A, S, W>(source, alloc, settings, &scenario, writer)?;
            Ok(TextEnd::Whole)
        }
        ScenarioInput::BadLine(number) => {
            print_bad_line(alloc, writer, number)?;
            Ok(TextEnd::BadLine(number))
        }
    }
}
