//! The end of an input, as the request that a running cluster stop.
ghost use Rattle.std.specs.Prelude.{IfErr};
ghost use Rattle.cluster_service.specs.RunFaults.{IsRunFault};

use byte_streams::{ProgramFault, Resource};
use cluster_workers::Stop;
use std::io::{ErrorKind, Read};
use std::sync::Arc;
use std::thread;
use std::thread::Threads;
use std::time::{Clock, Duration};

/// The most bytes that are read at once.
const PIECE_LEN: usize = 4096;

/// How many milliseconds pass before an input is read again that had nothing to read and didn't wait, or that filled the whole piece: reading an
/// input that never ends takes next to no processor time, and no typed line delays the end of its input.
const REST_MS: u64 = 50;

/// Reads an input until it ends or can't be read any more. A terminal whose reads return at once (VMIN 0) counts as ended.
fn read_to_end<R: Clock, I: Read>(rt: &R, input: &mut I) {
    let mut piece = [0; PIECE_LEN];
    for _ in 0..u64::MAX {
        let rests = match input.read(&mut piece) {
            Ok(0) => break,
            Ok(count) => count == PIECE_LEN,
            Err(error) if error.kind() == ErrorKind::Interrupted => true,
            Err(error) if error.kind() == ErrorKind::WouldBlock => true,
            Err(_) => break,
        };
        if rests {
            let _ = thread::sleep(rt, Duration::from_millis(REST_MS));
        }
    }
}

/// Asks a cluster to stop when the input ends. A thread of its own reads the input. Nothing waits for that thread, since a read can't be
/// interrupted. The errors are an input that can't be read, and that no thread can be had.
pub fn stop_at_end<R, I>(rt: &R, mut input: I, stop: Arc<Stop>) -> Result<(), ProgramFault>
where
    R: Clock + Copy + Send + Threads + 'static,
    I: Read + Drop + Send + 'static,
    ensures { IfErr result IsRunFault }
{
    if let Err(error) = input.read(&mut []) {
        return Err(ProgramFault::Refused(Resource::Input, error));
    }
    let rt = *rt;
    let reading = move || {
        read_to_end(&rt, &mut input);
        stop.ask();
    };
    match thread::spawn(&rt, reading) {
        Ok(_) => Ok(()),
        Err(_) => Err(ProgramFault::NoThread),
    }
}
