//! The program over any clock and any streams.
use crate::answering::answer;
use crate::checks::check;
use crate::output::write_line;
use crate::table::write_table;
use plain_text::decimal;
use std::alloc::Global;
use std::io::{self, BufRead, ErrorKind, Write};
use std::time::{Clock, Duration};

/// All was done.
const DONE: u8 = 0;
/// An operation returned something that it never may.
const WRONG: u8 = 1;
/// The words are no command line.
const BAD_USAGE: u8 = 2;
/// Memory ran out, or a stream or the clock failed.
const STOPPED: u8 = 3;

/// The seconds for which each figure of the table is measured, if the words don't give them.
const SECONDS: u32 = 2;

/// The most seconds that the words may give.
const MAX_SECONDS: u32 = 60;

const USAGE: &str = "\
usage: lms_speed [table [SECONDS]], SECONDS from 0 to 60
Without a word it answers lines of standard input: 'public W H I SEED', 'sign W H I SEED LEAF MESSAGE',
'verify KEY MESSAGE SIGNATURE' and 'rate verify|sign|keygen W H SECONDS', SECONDS from 0.001 to 60.";

/// Runs the program on its words, of which the first is its name, and returns its exit status: 0 done, 1 an operation
/// is wrong, 2 bad usage, 3 out of memory, or a failed stream or clock.
pub fn run<C: Clock, R: BufRead, W: Write, F: Write>(
    clock: &C,
    alloc: Global,
    words: &[String],
    reader: &mut R,
    writer: &mut W,
    faults: &mut F,
) -> u8 {
    let done = match read_words(words) {
        Some(Asked::Answers) => check_and_answer(clock, alloc, reader, writer),
        Some(Asked::Table(time)) => write_table(clock, alloc, writer, time),
        None => {
            let _ = write_line(faults, USAGE);
            return BAD_USAGE;
        }
    };
    match done {
        Ok(()) => DONE,
        Err(error) => {
            let _ = writeln!(faults, "error: {error}");
            status_of(error.kind())
        }
    }
}

/// The exit status after an error. An error of the kind `Other` is a wrong result.
fn status_of(kind: ErrorKind) -> u8 {
    match kind {
        ErrorKind::Other => WRONG,
        _ => STOPPED,
    }
}

/// What the words ask for.
#[derive(Clone, Copy)]
enum Asked {
    /// To answer each line.
    Answers,
    /// To write the table of figures, each measured for at least this time.
    Table(Duration),
}

/// What the words ask for, if they are a command line.
fn read_words(words: &[String]) -> Option<Asked> {
    let seconds = match words {
        [] | [_] => return Some(Asked::Answers),
        [_, name] if name.as_str() == "table" => SECONDS,
        [_, name, seconds] if name.as_str() == "table" => decimal(seconds)?,
        _ => return None,
    };
    if seconds > MAX_SECONDS {
        return None;
    }
    Some(Asked::Table(Duration::from_secs(u64::from(seconds))))
}

/// Checks a few operations, and then answers each line.
fn check_and_answer<C: Clock, R: BufRead, W: Write>(
    clock: &C,
    alloc: Global,
    reader: &mut R,
    writer: &mut W,
) -> io::Result<()> {
    check(alloc)?;
    let mut line = Vec::new(alloc);
    for _ in 0..u64::MAX {
        line.clear();
        if reader.read_until(b'\n', &mut line)? == 0 {
            break;
        }
        answer_line(clock, alloc, &line, writer)?;
    }
    Ok(())
}

/// Answers a line.
fn answer_line<C: Clock, W: Write>(
    clock: &C,
    alloc: Global,
    line: &[u8],
    writer: &mut W,
) -> io::Result<()> {
    let line = line.strip_suffix(b"\n").unwrap_or(line);
    let answer = answer(clock, alloc, line)?;
    write_line(writer, &answer)
}
