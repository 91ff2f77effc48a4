//! Runs the subcommand that the words ask for, and returns the exit status.
ghost use Rattle.std.specs.Prelude.{◌≡◌, ◌⊎◌, ◌≤◌, [], map, None, IfErr, IfOk, MatchResult};
ghost use Rattle.std.specs.IoError.{error_kind};
ghost use Rattle.std.specs.Io.KnownBytes.{Keeps};
ghost use Rattle.ledger_model.specs.Spelling.{frame_bytes};
ghost use Rattle.command_line.specs.Faults.{AskForHelp, AskForHelpAlone, kinds_of};
ghost use Rattle.command_line.specs.Options.{AsksForText, IsRefused, IsSet, WantsMemory};
ghost use Rattle.byte_streams.specs.Faults.{IsMemoryOrAsked};
ghost use Rattle.program.specs.Statements.{signed};
ghost use Rattle.byte_streams.specs.Writing.{Writes};
ghost use Rattle.program.specs.Doing.{AsksForHistories, StartsRun, Done, ExplainsHistories, Halted, IfEnded, IfHanded, IsQuiet, Performs, settings_of, status_of_stream, status_of_text};

use crate::auditing::audit;
use crate::delivering::deliver;
use crate::drawing::draw;
use crate::outcome::{Conclusion, Outcome, Piped};
use crate::publishing::publish;
use crate::signing::signed_frame;
use crate::simulating::simulate;
use crate::status::{BAD_INPUT, BAD_USAGE, DONE};
use crate::stream_end::StreamEnd;
use crate::text_end::TextEnd;
use app_states::Opening;
use byte_streams::{
    ProgramFault, Resource, STOPPED, complain, flush_output, print, write_output, write_whole,
};
use cluster_setup::{Settings, SignSettings};
use command_line::{GivenKeys, UsageFault, settings};
use std::alloc::Global;
use std::io::{self, ErrorKind, Read, Write};
use std::random::RandomSource;

/// Runs the program on its words, of which the first is its name, and returns its exit status: 0 done, 1 bad input, or a fault
/// or a wrong receipt that an audit found, 2 bad usage, 3 out of memory, a full history or a failed stream. At 2 and 3 it writes
/// to `faults` what is wrong, and at 1 a sentence about a fault that an audit found. The random bytes of `source` are the keys of
/// hashes. If the words ask for a running cluster, it does nothing and returns the settings. The replicas run the application `A`.
///
/// The caller gives the seed or the cluster that the words name a file for, or the seed that they ask to be drawn, as
/// [`key_source`](command_line::key_source) says.
///
/// No clause can speak of the real stdin and stdout, nor of what a file has. The contract holds for every reader and writer whose bytes a
/// clause can name, and for every seed and cluster that is given.
pub fn run<A: Opening, S: RandomSource, R: Read, W: Write, F: Write>(
    source: &S,
    alloc: Global,
    words: &[&str],
    given: GivenKeys,
    reader: &mut R,
    writer: &mut W,
    faults: &mut F,
) -> Outcome
    // What the words ask for was done, or they ask only for the help or the version.
    ensures finishes { IfEnded result (λ status. (status ≡ 0) ⊎ (status ≡ 1)
        → Performs A.words A.meaning given (map (λ w. w.now) words.entry.now) status (R.remaining reader.old) (R.remaining reader.new)
        (W.contents writer.old) (W.contents writer.new)
        ⊎ (IsRefused A.words A.meaning given (map (λ w. w.now) words.entry.now) × AskForHelp A.words (map (λ w. w.now) words.entry.now)
        × (status ≡ 0) × Keeps (R.remaining reader.old) (R.remaining reader.new))) }
    ensures quiet { IfEnded result (λ status. status ≡ 0 → Keeps (F.contents faults.old) (F.contents faults.new)) }
    // Only an audit and a picture explain what is wrong with histories.
    ensures explains { IfEnded result (λ status. status ≡ 1
        → Keeps (F.contents faults.old) (F.contents faults.new) ⊎ AsksForHistories A.words A.meaning given (map (λ w. w.now) words.entry.now)) }
    // The words are no command line, or set nothing, and don't ask for the help or the version.
    ensures refuses { IfEnded result (λ status. status ≡ 2 → IsRefused A.words A.meaning given (map (λ w. w.now) words.entry.now)
        × (AskForHelpAlone A.words (map (λ w. w.now) words.entry.now) → ⊥)
        × Keeps (R.remaining reader.old) (R.remaining reader.new) × Keeps (W.contents writer.old) (W.contents writer.new)) }
    // What the words ask for was begun, or nothing was, or the help or the version could not be written.
    ensures stops { IfEnded result (λ status. status ≡ 3
        → StartsRun A.words A.meaning given (map (λ w. w.now) words.entry.now) (R.remaining reader.old) (R.remaining reader.new) (W.contents writer.old)
        (W.contents writer.new)
        ⊎ (Keeps (R.remaining reader.old) (R.remaining reader.new)
        × (Keeps (W.contents writer.old) (W.contents writer.new)
        ⊎ (IsRefused A.words A.meaning given (map (λ w. w.now) words.entry.now) × AskForHelp A.words (map (λ w. w.now) words.entry.now))))) }
    ensures known { IfEnded result (λ status. status ≤ 3) }
    // The settings are those of the words, which have no fault, and no stream was touched.
    ensures hands_back { IfHanded result (λ settings. IsSet A.words A.meaning given (map (λ w. w.now) words.entry.now) settings
        × Keeps (R.remaining reader.old) (R.remaining reader.new) × Keeps (W.contents writer.old) (W.contents writer.new)
        × Keeps (F.contents faults.old) (F.contents faults.new)
        × (kinds_of A.words (map (λ w. w.now) words.entry.now) ≡ [])) }
{
    match settings::<A>(alloc, words, given) {
        Ok(settings) => run_settings::<A, S, R, W, F>(
            source, alloc, settings, reader, writer, faults,
        ),
        Err(fault) => Outcome::Ended(write_fault(alloc, &fault, writer, faults)),
    }
}

/// Does what the settings ask for, and returns the exit status; or returns the settings, if that takes threads.
fn run_settings<A: Opening, S: RandomSource, R: Read, W: Write, F: Write>(
    source: &S,
    alloc: Global,
    settings: Settings,
    reader: &mut R,
    writer: &mut W,
    faults: &mut F,
) -> Outcome
    ensures ended { IfEnded result (λ status. (IsQuiet settings status (F.contents faults.old) (F.contents faults.new)
        × Done A.words.kinds A.meaning settings status (R.remaining reader.old) (R.remaining reader.new) (W.contents writer.old) (W.contents writer.new))
        ⊎ ((status ≡ 3) × Halted A.words.kinds A.meaning settings (R.remaining reader.old) (R.remaining reader.new) (W.contents writer.old)
        (W.contents writer.new))) }
    ensures handed { IfHanded result (λ handed. (handed ≡ settings)
        × Keeps (R.remaining reader.old) (R.remaining reader.new) × Keeps (W.contents writer.old) (W.contents writer.new)
        × Keeps (F.contents faults.old) (F.contents faults.new)) }
{
    match Piped::of(settings) {
        Ok(piped) => {
            let done = perform_whole::<A, S, R, W>(source, alloc, &piped, reader, writer);
            Outcome::Ended(end(alloc, done, faults))
        }
        Err(handed) => handed,
    }
}

/// Shows the help or the version if the words ask for it, and otherwise writes what is wrong with them. Returns the exit status.
fn write_fault<W: Write, F: Write>(
    alloc: Global,
    fault: &UsageFault<'_>,
    writer: &mut W,
    faults: &mut F,
) -> u8
    ensures { (AsksForText fault.now × (((result ≡ 0) × Keeps (F.contents faults.old) (F.contents faults.new)) ⊎ (result ≡ 3)))
        ⊎ (((AsksForText fault.now → ⊥) × Keeps (W.contents writer.old) (W.contents writer.new)) × (((result ≡ 2) × (WantsMemory fault.now → ⊥)) ⊎ (result ≡ 3))) }
{
    if fault.is_asked_for() {
        let done = show(alloc, fault, writer);
        return finish(alloc, done, faults);
    }
    let is_printed = complain(alloc, faults, fault);
    if is_printed && !fault.is_want_of_memory() {
        BAD_USAGE
    } else {
        STOPPED
    }
}

/// Writes why the words of the command line could not be read, and returns the exit status. No clause says what is written.
pub fn refuse_words<F: Write>(alloc: Global, error: io::Error, faults: &mut F) -> u8
    ensures usage { error_kind error ≡ ErrorKind.InvalidData → result ≡ 2 }
    ensures stopped { (error_kind error ≡ ErrorKind.InvalidData → ⊥) → result ≡ 3 }
{
    if error.kind() == ErrorKind::InvalidData {
        let _ = write_whole(faults, b"error: a word of the command line is not UTF-8\n");
        return BAD_USAGE;
    }
    let fault = if error.kind() == ErrorKind::OutOfMemory {
        ProgramFault::NoMemory
    } else {
        ProgramFault::Refused(Resource::Words, error)
    };
    finish(alloc, Err(fault), faults)
}

/// Does what the settings ask for, except for the flush, and returns how it ended.
fn perform<A: Opening, S: RandomSource, R: Read, W: Write>(
    source: &S,
    alloc: Global,
    settings: &Piped,
    reader: &mut R,
    writer: &mut W,
) -> Result<Conclusion, ProgramFault>
    ensures done { MatchResult result
        (λ ending. Done A.words.kinds A.meaning (settings_of settings.now) ending.status (R.remaining reader.old) (R.remaining reader.new)
        (W.contents writer.old) (W.contents writer.new))
        (λ _. Halted A.words.kinds A.meaning (settings_of settings.now) (R.remaining reader.old) (R.remaining reader.new) (W.contents writer.old)
        (W.contents writer.new)) }
    ensures explains { IfOk result (ExplainsHistories (settings_of settings.now)) }
{
    match settings {
        Piped::Sign(settings) => {
            sign(alloc, settings, writer)?;
            Ok(Conclusion::plain(DONE))
        }
        Piped::Deliver(settings) => {
            let end = deliver::<A, S, R, W>(source, alloc, settings, reader, writer)?;
            Ok(Conclusion::plain(stream_status(end)))
        }
        Piped::Simulate(settings) => {
            let end = simulate::<A, S, R, W>(source, alloc, settings, reader, writer)?;
            Ok(Conclusion::plain(text_status(end)))
        }
        Piped::Audit(settings) => audit::<A, S, R, W>(source, alloc, settings, reader, writer),
        Piped::Draw(settings) => draw::<A, S, R, W>(source, alloc, settings, reader, writer),
        Piped::Keys(cluster) => {
            publish(alloc, cluster, writer)?;
            Ok(Conclusion::plain(DONE))
        }
    }
}

/// Does what the settings ask for, flushes the writer, and returns how it ended.
fn perform_whole<A: Opening, S: RandomSource, R: Read, W: Write>(
    source: &S,
    alloc: Global,
    settings: &Piped,
    reader: &mut R,
    writer: &mut W,
) -> Result<Conclusion, ProgramFault>
    ensures done { MatchResult result
        (λ ending. Done A.words.kinds A.meaning (settings_of settings.now) ending.status (R.remaining reader.old) (R.remaining reader.new)
        (W.contents writer.old) (W.contents writer.new))
        (λ _. Halted A.words.kinds A.meaning (settings_of settings.now) (R.remaining reader.old) (R.remaining reader.new) (W.contents writer.old)
        (W.contents writer.new)) }
    ensures explains { IfOk result (ExplainsHistories (settings_of settings.now)) }
{
    let ending = perform::<A, S, R, W>(source, alloc, settings, reader, writer)?;
    flush_output(writer)?;
    Ok(ending)
}

/// The exit status of `abft deliver`, by how its stream ended.
fn stream_status(end: StreamEnd) -> u8
    ensures { result ≡ status_of_stream end }
{
    match end {
        StreamEnd::Whole => DONE,
        StreamEnd::Cut | StreamEnd::Fault(_) => BAD_INPUT,
    }
}

/// The exit status of `abft simulate`, by how its text ended.
fn text_status(end: TextEnd) -> u8
    ensures { result ≡ status_of_text end }
{
    match end {
        TextEnd::Whole => DONE,
        TextEnd::BadLine(_) => BAD_INPUT,
    }
}

/// `abft sign`: writes the frame of the settings.
fn sign<W: Write>(
    alloc: Global,
    settings: &SignSettings,
    writer: &mut W,
) -> Result<(), ProgramFault>
    ensures written { Writes result (W.contents writer.old) (W.contents writer.new) (frame_bytes (signed settings.now)) }
    ensures fault { IfErr result IsMemoryOrAsked }
{
    let frame = signed_frame(alloc, settings)?;
    write_output(writer, frame.as_bytes())
}

/// Writes the help or the version that the words ask for, and returns the exit status.
fn show<W: Write>(
    alloc: Global,
    asked_for: &UsageFault<'_>,
    writer: &mut W,
) -> Result<u8, ProgramFault>
    ensures { IfOk result (λ status. status ≡ 0) }
{
    print(alloc, writer, asked_for)?;
    flush_output(writer)?;
    Ok(DONE)
}

/// Writes the explanation of an end, if it has one, and returns its exit status. A failed write changes nothing.
fn explain<F: Write>(alloc: Global, ending: &Conclusion, faults: &mut F) -> u8
    ensures status { result ≡ ending.now.status }
    ensures quiet { ending.now.explanation ≡ None → Keeps (F.contents faults.old) (F.contents faults.new) }
{
    if let Some(text) = &ending.explanation {
        let _ = complain(alloc, faults, text);
    }
    ending.status
}

/// The exit status of what was done. Writes the explanation of the end, or why the program stopped.
fn end<F: Write>(alloc: Global, done: Result<Conclusion, ProgramFault>, faults: &mut F) -> u8
    ensures { MatchResult done
        (λ ending. (result ≡ ending.status) × (ending.explanation ≡ None → Keeps (F.contents faults.old) (F.contents faults.new)))
        (λ _. result ≡ 3) }
{
    match done {
        Ok(ending) => explain(alloc, &ending, faults),
        Err(fault) => finish(alloc, Err(fault), faults),
    }
}

/// The exit status of what was done. If the program stopped, writes why.
pub fn finish<F: Write>(alloc: Global, done: Result<u8, ProgramFault>, faults: &mut F) -> u8
    ensures { MatchResult done (λ status. (result ≡ status) × Keeps (F.contents faults.old) (F.contents faults.new)) (λ _. result ≡ 3) }
{
    match done {
        Ok(status) => status,
        Err(fault) => {
            let _ = complain(alloc, faults, &fault);
            STOPPED
        }
    }
}
