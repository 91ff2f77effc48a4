//! Runs a program on the words and streams of its process, and returns the exit status.
use crate::key_files::{given_keys, stop};
use app_states::Opening;
use byte_streams::{ProgramFault, Resource, require_open};
use cluster_reports::{SharedStatus, Watcher, start_reporter};
use cluster_service::{
    ClusterOutcome, Operator, ServerOutcome, cluster, open_histories, open_listeners, serve,
    write_ports,
};
use cluster_setup::{ClusterSettings, ServeSettings};
use program::{Outcome, finish, refuse_words, run};
use std::alloc::Global;
use std::io::{Input, IsTerminal, Lock, Stderr, Stdin, Stdout};
use std::net::{Net, TcpListener, TcpStream};
use std::random::RandomSource;
use std::rt::{Env, Files};
use std::sync::{Arc, Wait};
use std::thread::Threads;
use std::time::Clock;
use std::{env, io};

/// The standard streams of the process.
#[derive(Clone, Copy)]
pub struct StandardStreams {
    pub input: Stdin,
    pub output: Stdout,
    pub errors: Stderr,
}

/// Runs the program whose replicas run the application `A`, on the words and streams of the process, and returns its exit status, as
/// [`run`](program::run) says. A cluster runs in threads, and ends before this returns. No clause says what a process does; those of
/// `run`, `cluster` and `serve` do.
pub fn run_process<A, R>(rt: &R, streams: StandardStreams) -> u8
where
    A: Opening + Send,
    R: AllocGlobal
        + Clock
        + Copy
        + Env
        + Files
        + Net<Listener = TcpListener, Stream = TcpStream>
        + RandomSource
        + Send
        + Sync
        + Threads
        + Wait
        + 'static,
{
    let alloc = rt.alloc();
    match run_words::<A, R>(rt, alloc, streams) {
        Ok(Outcome::Ended(status)) => status,
        Ok(Outcome::Cluster(mut settings)) => {
            end_at_terminal(&mut settings, &streams);
            watch_cluster::<A, R>(rt, alloc, &settings, streams)
        }
        Ok(Outcome::Serve(mut settings)) => {
            end_at_terminal(&mut settings.cluster, &streams);
            watch_server::<A, R>(rt, alloc, &settings, streams)
        }
        Err(error) => {
            let mut faults = streams.errors;
            refuse_words(alloc, error, &mut faults)
        }
    }
}

/// Lets a cluster end with standard input if that is a terminal, where a person ends it by Ctrl-D.
fn end_at_terminal(settings: &mut ClusterSettings, streams: &StandardStreams) {
    settings.stops_at_eof = settings.stops_at_eof || streams.input.is_terminal();
}

/// The subcommand `cluster`, with a reporter that writes to standard error. Returns the exit status.
fn watch_cluster<A, R>(
    rt: &R,
    alloc: Global,
    settings: &ClusterSettings,
    streams: StandardStreams,
) -> u8
where
    A: Opening + Send,
    R: AllocGlobal
        + Clock
        + Copy
        + Env
        + Files
        + RandomSource
        + Send
        + Sync
        + Threads
        + Wait
        + 'static,
{
    let mut faults = streams.errors;
    match report(rt, alloc, watcher(rt, streams.errors), settings) {
        Ok(status) => {
            let done = run_cluster::<A, R>(rt, alloc, settings, &status, streams);
            status.close(rt, done)
        }
        Err(fault) => finish(alloc, Err(fault), &mut faults),
    }
}

/// The subcommand `serve`, with a reporter that writes to standard error. Returns the exit status.
fn watch_server<A, R>(
    rt: &R,
    alloc: Global,
    settings: &ServeSettings,
    streams: StandardStreams,
) -> u8
where
    A: Opening + Send,
    R: AllocGlobal
        + Clock
        + Copy
        + Env
        + Files
        + Net<Listener = TcpListener, Stream = TcpStream>
        + RandomSource
        + Send
        + Sync
        + Threads
        + Wait
        + 'static,
{
    let mut faults = streams.errors;
    match report(rt, alloc, watcher(rt, streams.errors), &settings.cluster) {
        Ok(status) => {
            let done = run_server::<A, R>(rt, alloc, settings, &status, streams);
            status.close(rt, done)
        }
        Err(fault) => finish(alloc, Err(fault), &mut faults),
    }
}

/// Whether the terminal of the process erases a line that is written again. A terminal without a kind, or of the kind `dumb`, doesn't.
fn erases_lines<R: AllocGlobal + Env>(rt: &R) -> bool {
    match env::var(rt, "TERM") {
        Ok(kind) => !kind.is_empty() && kind.as_str() != "dumb",
        Err(_) => false,
    }
}

/// Standard error, as the watcher of a running cluster.
fn watcher<R: AllocGlobal + Env>(rt: &R, errors: Stderr) -> Watcher<Stderr> {
    if errors.is_terminal() && erases_lines(rt) {
        Watcher::Terminal(errors)
    } else {
        Watcher::Log(errors)
    }
}

/// Starts the reporter of a cluster, if standard error is open.
fn report<R: Copy + Send + Threads + Wait + 'static>(
    rt: &R,
    alloc: Global,
    mut watcher: Watcher<Stderr>,
    settings: &ClusterSettings,
) -> Result<Arc<SharedStatus>, ProgramFault> {
    require_open(watcher.writer(), Resource::Errors)?;
    start_reporter(rt, alloc, watcher, settings)
}

/// The subcommand `cluster`, if standard output is open, and the file for the histories.
fn run_cluster<A, R>(
    rt: &R,
    alloc: Global,
    settings: &ClusterSettings,
    status: &SharedStatus,
    streams: StandardStreams,
) -> Result<u8, ProgramFault>
where
    A: Opening + Send,
    R: Clock + Copy + Files + RandomSource + Send + Sync + Threads + Wait + 'static,
{
    let mut output = streams.output;
    require_open(&output, Resource::Output)?;
    let mut file = open_histories(rt, settings)?;
    let operator = Operator {
        status,
        input: streams.input,
    };
    let ClusterOutcome {
        status: ended,
        run: _run,
    } = cluster::<A, _, _, _, _>(rt, alloc, settings, operator, &mut output, &mut file)?;
    Ok(ended)
}

/// The subcommand `serve`, if standard output is open, and the file for the histories. The file is emptied only once there are the
/// listeners, so a port that is taken leaves an earlier file as it was. The ports are written before the cluster runs.
fn run_server<A, R>(
    rt: &R,
    alloc: Global,
    settings: &ServeSettings,
    status: &SharedStatus,
    streams: StandardStreams,
) -> Result<u8, ProgramFault>
where
    A: Opening + Send,
    R: Clock
        + Copy
        + Files
        + Net<Listener = TcpListener, Stream = TcpStream>
        + RandomSource
        + Send
        + Sync
        + Threads
        + Wait
        + 'static,
{
    let mut output = streams.output;
    require_open(&output, Resource::Output)?;
    let listeners = open_listeners(rt, settings)?;
    let mut file = open_histories(rt, &settings.cluster)?;
    write_ports(alloc, &listeners, &mut output)?;
    let operator = Operator {
        status,
        input: streams.input,
    };
    let ServerOutcome {
        status: ended,
        run: _run,
        services: _services,
    } = serve::<A, _, _, _, _>(
        rt,
        alloc,
        settings,
        listeners,
        operator,
        &mut output,
        &mut file,
    )?;
    Ok(ended)
}

/// Does what the words of the process ask for, unless that takes threads. The seed of all keys, or the cluster, is read or drawn first,
/// if it isn't in the words. An `Err` means that the words could not be read.
fn run_words<A: Opening, R: AllocGlobal + Env + Files + RandomSource>(
    rt: &R,
    alloc: Global,
    streams: StandardStreams,
) -> io::Result<Outcome> {
    let words: Vec<String> = env::args(rt)?.collect(alloc)?;
    let words: Vec<&str> = words.iter().map(|word| word.as_str()).collect(alloc)?;
    let mut faults = streams.errors;
    let given = match given_keys::<A, _, _>(rt, alloc, &words, &mut faults) {
        Ok(given) => given,
        Err(fault) => return Ok(Outcome::Ended(stop(alloc, &fault, &mut faults))),
    };
    let mut reader = streams.input.lock();
    let mut writer = streams.output;
    Ok(run::<A, _, _, _, _>(
        rt,
        alloc,
        &words,
        given,
        &mut reader,
        &mut writer,
        &mut faults,
    ))
}
