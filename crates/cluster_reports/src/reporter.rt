//! How a running cluster stands, for its operator: on a terminal by one line that is written over and over, else by a line for
//! each thing that happens. A thread of its own writes these lines, and the fault that ended the cluster; nobody waits for it for long.
ghost use Rattle.std.specs.Prelude.{◌≡◌, ◌⊎◌, IfErr};
ghost use Rattle.byte_streams.specs.declared.program_fault.ProgramFault.TheVariants.{NoMemory, NoThread};

use crate::cluster_status::{FIRST_NOTICES, unknown};
use crate::notice::Notice;
use crate::reporting::SharedStatus;
use byte_streams::{ProgramFault, complain, write_whole};
use cluster_setup::ClusterSettings;
use log::LevelFilter;
use replica_turns::ReplicaStatus;
use std::alloc::{AllocError, Global};
use std::io::Write;
use std::sync::{Arc, Wait};
use std::thread::Threads;
use std::time::Duration;
use std::{fmt, mem, thread};

/// Where the operator reads the reports.
#[derive(Drop)]
pub enum Watcher<P: Write + Drop> {
    /// A terminal, on which each line of progress replaces the one before.
    Terminal(P),
    /// Plain lines, which may go to a file.
    Log(P),
}

impl<P: Write + Drop> Watcher<P> {
    /// The stream that is looked at.
    pub fn writer(&mut self) -> &mut P {
        match self {
            Watcher::Terminal(writer) | Watcher::Log(writer) => writer,
        }
    }

    pub(crate) fn is_log(&self) -> bool {
        matches!(self, Watcher::Log(_))
    }

    /// The same stream, in plain lines unless it is a terminal that shows progress and no more.
    fn for_level(self, filter: LevelFilter) -> Self {
        match self {
            Watcher::Terminal(writer) if filter != LevelFilter::Info => Watcher::Log(writer),
            watcher => watcher,
        }
    }
}

/// Reports a cluster's status to a watcher.
#[derive(Drop)]
pub(crate) struct Reporter<P: Write + Drop> {
    alloc: Global,
    watcher: Watcher<P>,
    rounds: u32,
    shared: Arc<SharedStatus>,
    /// The notices that it took last and hasn't reported yet.
    notices: Vec<Notice>,
    /// The status of each replica at that time, by number.
    replicas: Vec<ReplicaStatus>,
    /// The last round of replica 0 that it reported.
    reported: u32,
    /// Whether it reported that the workers have ended.
    is_ended: bool,
}

/// Erases the rest of the terminal's line.
const ERASE: &str = "\x1b[K";

/// Erases a terminal's line, and goes to its start.
const CLEAR: &str = "\r\x1b[K";

/// The most seconds that a reporter sleeps.
const LONGEST_S: u64 = 10;

/// The least and the greatest of some numbers.
#[derive(Clone, Copy, Debug, PartialEq, Eq)]
struct Range {
    least: u32,
    most: u32,
}

impl Range {
    /// The range of no numbers.
    const NONE: Range = Range {
        least: u32::MAX,
        most: 0,
    };

    fn add(&mut self, number: u32) {
        self.least = self.least.min(number);
        self.most = self.most.max(number);
    }
}

impl fmt::Display for Range {
    fn fmt<W: fmt::Write>(&self, f: &mut fmt::Formatter<W>) -> fmt::Result {
        let Range { least, most } = *self;
        if least == most {
            write!(f, "{least}")
        } else {
            write!(f, "{least}-{most}")
        }
    }
}

impl<P: Write + Drop> Reporter<P> {
    /// A reporter for a cluster of `replicas` replicas, which has written nothing yet.
    fn new(
        alloc: Global,
        watcher: Watcher<P>,
        replicas: u8,
        rounds: u32,
        shared: Arc<SharedStatus>,
    ) -> Result<Self, AllocError> {
        Ok(Reporter {
            alloc,
            watcher,
            rounds,
            shared,
            notices: Vec::with_capacity(alloc, FIRST_NOTICES)?,
            replicas: unknown(alloc, replicas)?,
            reported: 0,
            is_ended: false,
        })
    }

    /// Writes a text, and ignores a failure to write it.
    fn write(&mut self, text: &str) {
        let _ = write_whole(self.watcher.writer(), text.as_bytes());
    }

    /// The line of a notice. On a terminal it replaces the line of progress and, unless the notice is one of progress, ends with a
    /// line feed, so that the next line starts below it.
    fn notice_line(&self, notice: Notice) -> Result<String, AllocError> {
        if self.watcher.is_log() {
            format!(in self.alloc; "{notice}\n")
        } else if notice.is_progress() {
            format!(in self.alloc; "\r{notice}{ERASE}")
        } else {
            format!(in self.alloc; "\r{notice}{ERASE}\n")
        }
    }

    /// The line of progress, at most 80 columns wide: replica 0's open round, the least and the greatest number of
    /// blocks and of signatures left among the replicas, and how many replicas are mute.
    fn progress_line(&self) -> Result<String, AllocError> {
        let round = self.reported;
        let rounds = self.rounds;
        let mut blocks = Range::NONE;
        let mut signatures = Range::NONE;
        let mut mute = 0u32;
        for status in &self.replicas {
            blocks.add(status.height);
            signatures.add(status.signatures);
            mute = mute.saturating_add(u32::from(status.is_mute));
        }
        format!(in self.alloc;
            "\rround {round} of {rounds}, blocks {blocks}, signatures {signatures}, {mute} mute{ERASE}"
        )
    }

    /// Whether replica 0 opened a round that was not reported yet. Counts it as reported.
    fn has_progress(&mut self) -> bool {
        let round = self.replicas.first().map_or(0, |status| status.rounds);
        round > mem::replace(&mut self.reported, round)
    }

    /// Reports a notice, unless memory runs out. A log skips notices of progress.
    fn tell(&mut self, notice: Notice) {
        if notice.is_progress() && self.watcher.is_log() {
            return;
        }
        if let Ok(line) = self.notice_line(notice) {
            self.write(&line);
        }
        if notice.is_end() {
            self.is_ended = true;
            self.shared.end_told();
        }
    }

    /// Reports everything that it took. On a terminal it then writes the line of progress, if there is news, or if a notice took
    /// the place of that line.
    fn tell_all(&mut self) {
        let notices = mem::replace(&mut self.notices, Vec::new(self.alloc));
        let covers = self.reported > 0 && notices.iter().any(|notice| !notice.is_progress());
        for notice in &notices {
            self.tell(*notice);
        }
        self.notices = notices;
        if !self.watcher.is_log() && !self.is_ended && (self.has_progress() || covers) {
            if let Ok(line) = self.progress_line() {
                self.write(&line);
            }
        }
    }

    /// Takes the notices that are not reported yet. Returns whether no more will follow.
    fn take<R: Wait>(&mut self, rt: &R) -> bool {
        self.shared
            .hand_over(rt, &mut self.notices, &mut self.replicas)
    }

    /// Writes the fault that ended the cluster, if one did. On a terminal it takes the place of the line of progress.
    fn tell_fault<R: Wait>(&mut self, rt: &R) {
        if let Some(fault) = self.shared.take_fault(rt) {
            if !self.watcher.is_log() {
                self.write(CLEAR);
            }
            let _ = complain(self.alloc, self.watcher.writer(), &fault);
        }
    }

    /// Reports what happens, until no more notices will follow.
    fn run<R: Wait>(mut self, rt: &R) {
        for _ in rt.forever() {
            let news = self.shared.news();
            let is_over = self.take(rt);
            self.tell_all();
            if is_over {
                break;
            }
            self.shared.sleep(rt, news, Duration::from_secs(LONGEST_S));
        }
        self.tell_fault(rt);
        self.shared.end();
    }
}

/// Starts the reporter of a cluster in a detached thread, and returns what it shares with the cluster. It writes the notices that the
/// settings ask for, and the fault that ends the cluster, if one does.
pub fn start_reporter<R, P>(
    rt: &R,
    alloc: Global,
    watcher: Watcher<P>,
    settings: &ClusterSettings,
) -> Result<Arc<SharedStatus>, ProgramFault>
where
    R: Copy + Send + Threads + Wait + 'static,
    P: Write + Drop + Send + 'static,
    ensures { IfErr result (λ fault. (fault ≡ NoMemory) ⊎ (fault ≡ NoThread)) }
{
    let replicas = settings.cluster.config.replicas;
    let watcher = watcher.for_level(settings.log);
    let shared = SharedStatus::new(alloc, replicas, settings.log, watcher.is_log())?;
    let shared = Arc::new(alloc, shared)?;
    let theirs = Arc::try_clone(&shared)?;
    let reporter = Reporter::new(alloc, watcher, replicas, settings.rounds, theirs)?;
    let rt = *rt;
    match thread::spawn(&rt, move || reporter.run(&rt)) {
        Ok(_) => Ok(shared),
        Err(_) => Err(ProgramFault::NoThread),
    }
}
