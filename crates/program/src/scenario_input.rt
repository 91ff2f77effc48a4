//! Reads a scenario from a stream, and no further than the text can still be one.
ghost use Rattle.std.specs.Prelude.{◌⊎◌, ℕ, List, MatchResult, IfErr};
ghost use Rattle.std.specs.Io.KnownBytes.{Consumes, IsAtEnd};
ghost use Rattle.scenario_texts.specs.Lines.{IsTooLarge};
ghost use Rattle.byte_streams.specs.Faults.{IsMemoryOrAsked};
ghost use Rattle.program.specs.Simulating.{IsRead, IsReadInTime};

use crate::reading::{PIECE_LEN, read_piece};
use app_states::Opening;
use byte_streams::{ProgramFault, Resource};
use scenario_texts::{LineCount, Scenario, TextFault, read};
use std::alloc::Global;
use std::io::{self, ErrorKind, Read};

/// What the stream contained.
#[derive(Drop)]
pub(crate) enum ScenarioInput {
    /// A scenario.
    Scenario(Scenario),
    /// A text whose first bad line has this number.
    BadLine(u32),
}

/// The text of a stream, to its end, or until the text is too large for a scenario.
fn read_text<R: Read>(alloc: Global, reader: &mut R) -> Result<Vec<u8>, ProgramFault>
    ensures read { MatchResult result
        (λ text. Consumes (R.remaining reader.old) (R.remaining reader.new) text.items
        × (IsReadInTime text.items × (IsAtEnd (R.remaining reader.new) ⊎ IsTooLarge text.items)))
        (λ _. (input : List ℕ) × (Consumes (R.remaining reader.old) (R.remaining reader.new) input × IsReadInTime input)) }
    ensures fault { IfErr result IsMemoryOrAsked }
{
    let mut text = Vec::new(alloc);
    let mut lines = LineCount::new();
    let mut piece = [0; PIECE_LEN];
    for _ in 0..u64::MAX {
        let count = read_piece(reader, &mut piece)?;
        if count == 0 {
            return Ok(text);
        }
        text.extend_from_slice(&piece[..count])?;
        if !lines.take_all(&piece[..count]) {
            return Ok(text);
        }
    }
    Err(ProgramFault::Refused(Resource::Input, io::Error::from(ErrorKind::TimedOut)))
}

/// The scenario of a stream, or the number of its first bad line. The text is dropped before the scenario is returned.
pub(crate) fn read_scenario<A: Opening, R: Read>(
    alloc: Global,
    reader: &mut R,
) -> Result<ScenarioInput, ProgramFault>
    ensures read { MatchResult result
        (λ found. IsRead A.words.kinds found (R.remaining reader.old) (R.remaining reader.new))
        (λ _. (input : List ℕ) × (Consumes (R.remaining reader.old) (R.remaining reader.new) input × IsReadInTime input)) }
    ensures fault { IfErr result IsMemoryOrAsked }
{
    let text = read_text(alloc, reader)?;
    match read(alloc, A::kinds(), &text) {
        Ok(scenario) => Ok(ScenarioInput::Scenario(scenario)),
        Err(TextFault::BadLine(number)) => Ok(ScenarioInput::BadLine(number)),
        Err(TextFault::NoMemory) => Err(ProgramFault::NoMemory),
    }
}
