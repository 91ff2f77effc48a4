//! What a picture of a run shows, from the histories of the run's replicas.
ghost use Rattle.std.specs.Prelude.{◌≡◌, ◌≤◌, ◌<◌, ◌-◌, ◌^◌, [], List, length, IfOk, OnOk};
ghost use Rattle.std.specs.List.{All, AllByRecursion};
ghost use Rattle.std.specs.Option.{option_copied};
ghost use Rattle.ledger_model.specs.Meanings.{Meanings};
ghost use Rattle.ledger_model.specs.declared.history.History.{History as HistoryValue};
ghost use Rattle.ledger_model.specs.Applications.{run};
ghost use Rattle.ledger_model.specs.Lawful.{clock_at};
ghost use Rattle.ledger_model.specs.Rules.{Ring};
ghost use Rattle.run_picture.specs.Frames.{frames_of_entry, deliveries_of_entry};
ghost use Rattle.run_picture.specs.Facts.{facts_at};
ghost use Rattle.run_picture.specs.Pictures.{IsPictureOf};
ghost use Rattle.run_picture.specs.Collected.{AddsShown, AddsEntries, AddsHistory, AddsRow, Collects, IsNothing};

use crate::deliveries::{Delivery, add_delivered};
use crate::entry_facts::{Mark, add_facts};
use crate::following::{ReplayMarks, Scope, follow_history};
use crate::history_break::{HistoryBreak, break_after};
use crate::locks_held::locks_held;
use crate::part::Part;
use crate::sent_frames::{SentFrame, add_sent};
use crate::sources::{Arrival, arrivals};
use abci::Application;
use history_follower::shared_verifier;
use key_ring::KeyRing;
use ledger_model::{Config, Entry, History, ReplicaId, history_of, is_opened};
use std::alloc::{AllocError, Global};
use std::hash::RandomState;
use verify_cache::Verifier;

/// What a picture of a run shows. Each list is in the order of replicas, then of their entries.
pub struct Picture {
    pub config: Config,
    pub part: Part,
    /// For each replica of the cluster the number of rounds that it opened, if its history was handed in.
    pub rounds: Vec<Option<u64>>,
    /// The frames that replicas send.
    pub sent: Vec<SentFrame>,
    /// What is delivered to replicas, and where it comes from.
    pub arrivals: Vec<Arrival>,
    /// The heights that replicas open and run.
    pub facts: Vec<Mark>,
    /// The locks that replicas hold.
    pub locks: Vec<Mark>,
    /// What replicas decide.
    pub decisions: Vec<Mark>,
    /// The heights that replicas retire.
    pub retired: Vec<Mark>,
    /// Where the first history that isn't a replay breaks: that of the least replica. The picture shows each history up to its break.
    pub first_break: Option<HistoryBreak>,
}

// An own `Drop` keeps proofs short: an owner drops it by one call. See docs/WORKING.md.
impl Drop for Picture {
    fn drop(self) {
        let Picture {
            config: _config,
            part: _part,
            rounds: _rounds,
            sent: _sent,
            arrivals: _arrivals,
            facts: _facts,
            locks: _locks,
            decisions: _decisions,
            retired: _retired,
            first_break: _first_break,
        } = self;
    }
}

/// What entries show one by one.
#[derive(Drop)]
struct Shown {
    sent: Vec<SentFrame>,
    deliveries: Vec<Delivery>,
    facts: Vec<Mark>,
}

/// What the histories of replicas show, up to their breaks.
#[derive(Drop)]
struct Collected {
    shown: Shown,
    marks: ReplayMarks,
    rounds: Vec<Option<u64>>,
    first_break: Option<HistoryBreak>,
}

/// Nothing, before the first history.
fn nothing_collected(alloc: Global) -> Collected
    ensures { IsNothing result }
{
    Collected {
        shown: Shown {
            sent: Vec::new(alloc),
            deliveries: Vec::new(alloc),
            facts: Vec::new(alloc),
        },
        marks: ReplayMarks {
            decisions: Vec::new(alloc),
            retired: Vec::new(alloc),
        },
        rounds: Vec::new(alloc),
        first_break: None,
    }
}

/// Appends what an entry shows. Round `clock` is open before it.
fn add_entry(
    alloc: Global,
    shown: &mut Shown,
    part: &Part,
    replica: ReplicaId,
    index: usize,
    clock: u64,
    entry: &Entry,
) -> Result<(), AllocError>
    requires { clock < 2 ^ 64 - 1 }
    ensures { OnOk result (AddsShown shown.old shown.new (frames_of_entry part.now replica index clock entry.now)
        (deliveries_of_entry part.now replica index clock entry.now) (facts_at part.now replica index clock entry.now)) }
{
    add_sent(alloc, &mut shown.sent, part, replica, index, clock, entry)?;
    add_delivered(
        alloc,
        &mut shown.deliveries,
        part,
        replica,
        index,
        clock,
        entry,
    )?;
    add_facts(&mut shown.facts, part, replica, index, clock, entry)
}

/// Appends what the entries of a history show, and returns the number of rounds that they open.
fn add_entries(
    alloc: Global,
    shown: &mut Shown,
    part: &Part,
    replica: ReplicaId,
    entries: &[Entry],
) -> Result<u64, AllocError>
    ensures shown { OnOk result (AddsEntries part.now replica entries.now shown.old shown.new) }
    ensures rounds { IfOk result (λ rounds. rounds ≡ clock_at entries.now) }
{
    let mut clock = 0;
    for (index, entry) in entries.iter().enumerate() {
        add_entry(alloc, shown, part, replica, index, clock, entry)?;
        if is_opened(&entry.reply) {
            clock += 1;
        }
    }
    Ok(clock)
}

/// Appends what the longest replay that a replica's history begins with shows.
fn add_history<A: Application>(
    alloc: Global,
    collected: &mut Collected,
    verifier: &mut Verifier,
    scope: &Scope,
    replica: ReplicaId,
    entries: &[Entry],
    app: A,
) -> Result<(), AllocError>
    requires member { replica < scope.now.config.replicas }
    requires opening { A.machine app ≡ run A.meaning scope.now.config.kind [] }
    ensures adds { OnOk result (AddsHistory A.meaning scope.now.config verifier.old.ring scope.now.part replica entries.now collected.old
        collected.new) }
    ensures ring { verifier.new.ring ≡ verifier.old.ring }
{
    let marks = &mut collected.marks;
    let count = follow_history(alloc, marks, verifier, scope, replica, entries, app)?;
    let shown = &mut collected.shown;
    let rounds = add_entries(alloc, shown, &scope.part, replica, &entries[..count])?;
    collected.rounds.push(Some(rounds))?;
    collected.first_break = break_after(collected.first_break, replica, count, entries.len());
    Ok(())
}

/// Appends what a replica's history shows, if it was handed in.
fn add_row<A: Application>(
    alloc: Global,
    collected: &mut Collected,
    verifier: &mut Verifier,
    scope: &Scope,
    replica: ReplicaId,
    history: Option<&History>,
    app: A,
) -> Result<(), AllocError>
    requires member { replica < scope.now.config.replicas }
    requires opening { A.machine app ≡ run A.meaning scope.now.config.kind [] }
    ensures adds { OnOk result (AddsRow A.meaning scope.now.config verifier.old.ring scope.now.part replica
        (option_copied history.entry) collected.old collected.new) }
    ensures ring { verifier.new.ring ≡ verifier.old.ring }
{
    match history {
        Some(history) => {
            let entries = history.entries.as_slice();
            add_history(alloc, collected, verifier, scope, replica, entries, app)
        }
        None => {
            collected.rounds.push(None)?;
            Ok(())
        }
    }
}

/// What the histories of all replicas of the cluster show, each followed with the next application.
///
/// One verifier serves all followers in turn, so what it remembers of one history serves the next.
fn collect<A: Application>(
    alloc: Global,
    verifier: &mut Verifier,
    scope: &Scope,
    histories: &[History],
    apps: Vec<A>,
) -> Result<Collected, AllocError>
    requires enough { scope.now.config.replicas ≤ length apps.items }
    requires opening { AllByRecursion (λ app. A.machine app ≡ run A.meaning scope.now.config.kind []) apps.items }
    ensures { IfOk result (Collects A.meaning scope.now.config verifier.old.ring scope.now.part histories.now scope.now.config.replicas) }
{
    let mut collected = nothing_collected(alloc);
    let mut apps = apps.into_iter();
    for number in 0..scope.config.replicas {
        let replica = ReplicaId::new(number);
        let Some(app) = apps.next() else {
            unreachable!()
        };
        let history = history_of(histories, replica);
        add_row(
            alloc,
            &mut collected,
            verifier,
            scope,
            replica,
            history,
            app,
        )?;
    }
    Ok(collected)
}

/// The picture of what was collected.
fn picture_from(alloc: Global, scope: Scope, collected: Collected) -> Result<Picture, AllocError>
    ensures { IfOk result (λ p. (meaning : Meanings) (ring : Ring) (histories : List HistoryValue)
        → Collects meaning scope.config ring scope.part histories scope.config.replicas collected
        → IsPictureOf meaning scope.config ring histories scope.part p) }
{
    let Scope {
        config,
        part,
        random,
    } = scope;
    let Collected {
        shown,
        marks,
        rounds,
        first_break,
    } = collected;
    let Shown {
        sent,
        deliveries,
        facts,
    } = shown;
    let ReplayMarks { decisions, retired } = marks;
    let locks = locks_held(alloc, &sent)?;
    let arrivals = arrivals(alloc, random, &sent, deliveries)?;
    Ok(Picture {
        config,
        part,
        rounds,
        sent,
        arrivals,
        facts,
        locks,
        decisions,
        retired,
        first_break,
    })
}

/// What a picture of the run shows in the part, from the histories of the cluster's replicas, each taken at any moment. Of two
/// histories of one replica the first counts, and histories of other replicas are left out. A history that isn't a replay under the
/// keys of the ring is shown up to its first entry that isn't lawful after those before it, or sends something that isn't signed.
///
/// The ring has the replicas' public keys by number. There is an application for each replica, in its opening state and of the
/// configured kind. Each history is followed as an audit follows it, and read once more; each frame of the part is parsed once more
/// and hashed once under the random keys. The sent frames of the part are sorted once for each replica. The only error is allocation
/// failure.
pub fn picture_of<A: Application>(
    alloc: Global,
    config: &Config,
    ring: &KeyRing,
    histories: &[History],
    apps: Vec<A>,
    part: Part,
    random: RandomState,
) -> Result<Picture, AllocError>
    requires enough { config.now.replicas ≤ length apps.items }
    requires opening { All (λ app. A.machine app ≡ run A.meaning config.now.kind []) apps.items }
    ensures { IfOk result (IsPictureOf A.meaning config.now ring.now histories.now part) }
{
    let mut verifier = shared_verifier(alloc, ring, histories, random)?;
    let scope = Scope {
        config: *config,
        part,
        random,
    };
    let collected = collect(alloc, &mut verifier, &scope, histories, apps)?;
    picture_from(alloc, scope, collected)
}
