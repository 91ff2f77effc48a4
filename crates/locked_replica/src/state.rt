//! A replica: its history and the core that goes with it, changed by one event at a time.
ghost use Rattle.std.specs.Prelude.{◌≡◌, ◌<◌, ◌∷◌, ◌++◌, [], vec_len, vec_capacity};

use crate::entry_view::EntryView;
use crate::snapshot::{Snapshot, copy_entries};
use crate::stored_entry::StoredEntry;
use crate::string_table::StringTable;
use crate::taking::take_event;
use abci::{Application, Info};
use batch_pool::Pool;
use bytes::Bytes;
use key_ring::{KeyRing, Signer};
use ledger_model::{
    ApplyFault, Batch, Config, Entries, Event, Height, History, Ignored, ReplicaId,
};
use replica_core::Core;
use signed_frames::{Frame, SignedPart};
use std::alloc::{AllocError, Global};
use std::hash::RandomState;
use std::marker::Model;
use verify_cache::Verifier;

/// The most entries of a history.
pub const MAX_ENTRIES: usize = Entries::MAX_LEN;

/// A replica: its history, and the core that acts on it.
///
/// The invariants of the type: the history is a replay, each entry lawful after those before it and each signature in a
/// reply verified; the core is what the history makes of it; and the replica is mute only if too few leaves were left.
/// Each different byte string of the history is stored once: the entries share delivered bytes and sent frames.
pub struct State<A: Application> {
    core: Core<A>,
    strings: StringTable,
    entries: Vec<StoredEntry>,
}

// An own `Drop` keeps proofs short: an owner drops it by one call. See docs/WORKING.md.
impl<A: Application> Drop for State<A> {
    fn drop(self) {
        let State {
            core: _core,
            strings: _strings,
            entries: _entries,
        } = self;
    }
}

impl<A: Application> Model for State<A> {
    ghost use Rattle.locked_replica.specs.States.{StateView, replica_of, IsReplica};

    ghost Value = { StateView };

    ghost use Rattle.locked_replica.specs.StoredEntries.{AreStored, entries_of};

    ghost view = { λ s. replica_of s.core.replay s.core.keys (entries_of s.strings s.entries.items) };

    ghost invariant = { λ s. IsReplica A.meaning s.core.replay s.core.keys (entries_of s.strings s.entries.items) × AreStored s.strings s.entries.items };
}

impl<A: Application> State<A> {
    ghost use Rattle.std.specs.Prelude.{◌≡◌, ◌<◌, ◌≤◌, ◌+◌, ◌↔◌, ◌∷◌, ◌++◌, [], false, length, map, slice_get, ◌==◌};
    ghost use Rattle.std.specs.Prelude.{Some, Err, IfOk, IfErr, OnErr, OnOk, IsErrOf, IsTrue};
    ghost use Rattle.std.specs.Option.{option_copied};
    ghost use Rattle.std.specs.List.{IsDistinct};
    ghost use Rattle.ledger_model.specs.Values.{same_bytes};
    ghost use Rattle.ledger_model.specs.declared.reply.Reply.{Reply};
    ghost use Rattle.ledger_model.specs.Limits.{max_height, max_history_len};
    ghost use Rattle.ledger_model.specs.Applications.{run};
    ghost use Rattle.ledger_model.specs.Commits.{commits_of, floor_of, pool_of, decision_at};
    ghost use Rattle.ledger_model.specs.declared.statement.SignedStatement.{SignedStatement};
    ghost use Rattle.ledger_model.specs.Lawful.{Lawful, Replay, answer, clock_at, is_signed_reply};
    ghost use Rattle.ledger_model.specs.Logs.{is_mute};
    ghost use Rattle.ledger_model.specs.Rules.{Ring, is_signed};
    ghost use Rattle.key_ring.specs.Signers.{public_key_of, leaves_of};
    ghost use Rattle.verify_cache.specs.Checks.{is_part_signed};
    ghost use Rattle.replica_core.specs.Steps.{UsesLeaves};
    ghost use Rattle.replica_core.specs.Placing.{answer_before_signature};
    ghost use Rattle.replica_core.specs.Facts.{block_at, info_reply, AreClosed};
    ghost use Rattle.locked_replica.specs.Strings.{HaveSame, all_strings, strings_of};
    ghost use Rattle.locked_replica.specs.Applying.{AppliesEvent, RefusesEvent, IsSound};
    ghost use Rattle.locked_replica.specs.States.{StateView, IsMember, AccountsForLeaves, RunsAlone, SignsEachOnce, new_state};

    /// A replica with an empty history. The application must be in its opening state, of the configured kind. The ring
    /// has the public keys of the replicas by number. The pool hashes with the first of the random keys, the verifier and
    /// the table of byte strings with the second. The only error is allocation failure.
    pub fn new(
        alloc: Global,
        config: Config,
        id: ReplicaId,
        signer: Signer,
        ring: KeyRing,
        app: A,
        randoms: [RandomState; 2],
    ) -> Result<Self, AllocError>
        requires member { IsMember config id ring signer.secret }
        requires opening { A.machine app ≡ run A.meaning config.kind [] }
        ensures { IfOk result (λ state. state ≡ new_state A.meaning config id ring signer) }
    {
        let [_, strings_random] = randoms;
        Ok(State {
            core: Core::new(alloc, config, id, signer, ring, app, randoms)?,
            strings: StringTable::new(alloc, strings_random),
            entries: Vec::new(alloc),
        })
    }

    /// The number of this replica.
    pub fn id(&self) -> ReplicaId
        ensures id { result ≡ self.now.id }
        ensures member { self.now.id < self.now.config.replicas }
        // The ring has this replica's own key at its number.
        ensures own_key { slice_get self.now.ring self.now.id ≡ Some (public_key_of self.now.secret) }
    {
        self.core.id()
    }

    /// The configuration of its cluster.
    pub fn config(&self) -> &Config
        ensures { result.now ≡ self.now.config }
    {
        self.core.config()
    }

    /// The public keys of the replicas, by number.
    pub fn ring(&self) -> &KeyRing
        ensures { result.now ≡ self.now.ring }
    {
        self.core.ring()
    }

    /// The verifier, which has the ring and knows the answers of the last checks. What it knows is no part of the state that
    /// contracts see.
    pub fn verifier(&self) -> &Verifier
        ensures { result.now.ring ≡ self.now.ring }
    {
        self.core.verifier()
    }

    /// Takes in what was computed elsewhere: whether each of these parts of frames is signed under this ring's keys, in
    /// order. A delivery of a frame that has one of them then doesn't hash it again. It is no event. Answers under other keys
    /// than this replica's ring has are left out, and so are those for which memory is refused.
    pub fn prime(&mut self, ring: &KeyRing, parts: &[SignedPart<'_>], answers: &[bool])
        requires { answers.now ≡ map (is_part_signed ring.now) parts.now }
        ensures { self.new ≡ self.old }
    {
        self.core.prime(ring, parts, answers);
    }

    /// The first cause for which the replica ignores the frame before it checks the signature, if one applies: the signer,
    /// the height, the round, the phase, the owner, or a repetition. If none applies, a delivery of the frame checks its
    /// signature. The frame must be of a version that the cluster's frames carry: any other is ignored as malformed.
    pub fn cause_before_signature(&self, frame: &Frame) -> Result<(), Ignored>
        ensures cause { result ≡ answer_before_signature self.now.config self.now.id self.now.entries frame.now.statement }
        // The reply to a delivery of the statement is that cause, whatever the signature is.
        ensures ignored { IfErr result (λ cause. (ring : Ring) (s : SignedStatement) → s.statement ≡ frame.now.statement
            → answer self.now.config ring self.now.id self.now.entries (Some s) ≡ Err cause) }
        // If there is none, a frame that isn't signed is ignored for that.
        ensures checked { OnOk result ((ring : Ring) → is_signed ring frame.now ≡ false
            → answer self.now.config ring self.now.id self.now.entries (Some frame.now) ≡ Err Ignored.BadSignature) }
    {
        self.core.cause_before_signature(frame)
    }

    /// The number of entries of the history, at most 65,536.
    pub fn len(&self) -> usize
        ensures len { result ≡ length self.now.entries }
        ensures few { result ≤ max_history_len }
        ensures sound { IsSound A.meaning self.now }
    {
        self.entries.len()
    }

    /// Whether the history is empty.
    pub fn is_empty(&self) -> bool
        ensures { result ≡ (length self.now.entries == 0) }
    {
        self.entries.is_empty()
    }

    /// The entry with this index, from 0 for the oldest; `None` if there are fewer.
    pub fn entry(&self, index: usize) -> Option<EntryView<'_>>
        ensures entry { result ≡ slice_get self.now.entries index }
        ensures replay { Replay A.meaning self.now.config self.now.ring self.now.id self.now.entries }
    {
        match self.entries.get(index) {
            Some(entry) => Some(EntryView::new(entry, &self.strings)),
            None => None,
        }
    }

    /// The number of different byte strings in the history: delivered bytes and sent frames. Each is stored once.
    pub fn strings(&self) -> usize
        ensures count { result ≡ length (strings_of self.now.entries) }
        // So they are all different, and exactly those of the history: both follow from the definition.
        ensures distinct { IsDistinct same_bytes (strings_of self.now.entries) }
        ensures same { HaveSame (strings_of self.now.entries) (all_strings self.now.entries) }
    {
        self.strings.len()
    }

    /// The byte string at a position, in the order in which they came first; `None` if there are fewer.
    pub fn string(&self, position: usize) -> Option<&[u8]>
        ensures { option_copied result ≡ slice_get (strings_of self.now.entries) position }
    {
        match self.strings.get(position) {
            Some(string) => Some(string.as_slice()),
            None => None,
        }
    }

    /// The pool: the transactions that wait for a block, in order of arrival.
    pub fn pool(&self) -> &Pool
        ensures { result.now ≡ pool_of A.meaning self.now.config self.now.id self.now.entries }
    {
        self.core.pool()
    }

    /// The number of transactions that wait for a block.
    pub fn waiting(&self) -> usize
        ensures { result ≡ length (pool_of A.meaning self.now.config self.now.id self.now.entries) }
    {
        self.core.pool().len()
    }

    /// The history for an audit. It shares all bytes that were submitted or delivered, and all frames: a copy of an entry takes
    /// only the entry itself, and the key of a query, the codes of a block or a list of sent frames. The only error is allocation
    /// failure.
    pub fn history(&self) -> Result<Snapshot, AllocError>
        ensures history { IfOk result (λ s. s.history ≡ record { replica = self.now.id; entries = self.now.entries }) }
        ensures config { IfOk result (λ s. s.config ≡ self.now.config) }
        ensures ring { IfOk result (λ s. s.ring ≡ self.now.ring) }
        ensures replay { Replay A.meaning self.now.config self.now.ring self.now.id self.now.entries }
    {
        Ok(Snapshot {
            config: *self.core.config(),
            ring: self.core.ring().copy()?,
            history: History {
                replica: self.core.id(),
                entries: copy_entries(*self.entries.allocator(), &self.strings, &self.entries)?,
            },
        })
    }

    /// The number of the open round, 0 before the first.
    pub fn clock(&self) -> u32
        ensures { result ≡ clock_at self.now.entries }
    {
        self.core.clock()
    }

    /// Whether the replica is mute: it will never sign a statement again.
    pub fn is_mute(&self) -> bool
        ensures mute { result ≡ is_mute self.now.entries }
        // It is mute only because too few leaves were left.
        ensures account { AccountsForLeaves self.now }
        // No leaf signed two of the statements that the history sends.
        ensures once { SignsEachOnce self.now }
    {
        self.core.is_mute()
    }

    /// The number of statements that the replica can still sign.
    pub fn leaves_left(&self) -> u32
        ensures { self.now.used + result ≡ leaves_of self.now.secret }
    {
        self.core.leaves_left()
    }

    /// The committed height: the number of blocks that the replica committed.
    #[tactic(auto, unfolding(crate::specs::States::RunsAlone))]
    pub fn height(&self) -> u32
        ensures height { result ≡ length (commits_of self.now.config self.now.id self.now.entries) }
        ensures most { result ≤ max_height }
        // The application is in the state that it reaches when it runs alone on the committed blocks.
        ensures machine { RunsAlone A.meaning self.now }
    {
        self.core.height()
    }

    /// The number of blocks that the application committed, and the hash of its state (ABCI's Info).
    pub fn info(&self) -> Info
        ensures { result ≡ info_reply A.meaning self.now.config.kind (commits_of self.now.config self.now.id self.now.entries) }
    {
        self.core.info()
    }

    /// The committed batch of a height; `None` at height 0 and above the committed height.
    pub fn block(&self, height: Height) -> Option<&Batch>
        ensures { option_copied result ≡ block_at (commits_of self.now.config self.now.id self.now.entries) height }
    {
        self.core.block(height)
    }

    /// The floor: the least height that the replica hasn't given up, 1 at first.
    pub fn floor(&self) -> Height
        ensures floor { result ≡ floor_of self.now.entries }
        // Every height below it is committed, and none of them is open.
        ensures low { result ≤ length (commits_of self.now.config self.now.id self.now.entries) + 1 }
        ensures closed { AreClosed self.now.config self.now.id self.now.entries result }
    {
        self.core.floor()
    }

    /// The batch that was decided at a height from the floor on, committed or not; `None` if none was, and below the floor.
    pub fn decided_at(&self, height: Height) -> Option<&Batch>
        ensures { option_copied result ≡ decision_at self.now.config self.now.id self.now.entries height }
    {
        self.core.decided_at(height)
    }

    /// Takes one event: the atomic step. Returns the index of the new entry, which contains the event and the reply to it.
    ///
    /// `HistoryFull` comes exactly if the history has 65,536 entries, and nothing changes. After `NoMemory` everything
    /// is as before, except that a round end may have used leaves.
    pub fn apply(&mut self, event: Event) -> Result<usize, ApplyFault>
        ensures index { IfOk result (λ index. index ≡ length self.old.entries) }
        ensures applied { OnOk result (AppliesEvent A.meaning self.old event self.new) }
        ensures refused { IfErr result (λ why. RefusesEvent self.old event why self.new) }
        ensures sound { IsSound A.meaning self.new }
    {
        let index = self.entries.len();
        if index >= MAX_ENTRIES {
            return Err(ApplyFault::HistoryFull);
        }
        // This call shows the proof that the statements which the core finds due are those which the history makes due.
        let _ = self.core.is_mute();
        let alloc = *self.entries.allocator();
        self.entries.reserve(1)?;
        let entry = take_event(alloc, &mut self.core, &mut self.strings, event)?;
        store(&mut self.entries, entry);
        Ok(index)
    }
}

/// Appends an entry to the history, which has room for it.
fn store(entries: &mut Vec<StoredEntry>, entry: StoredEntry)
    requires { vec_len entries.old < vec_capacity entries.old }
    ensures { entries.new.items ≡ entries.old.items ++ entry ∷ [] }
{
    match entries.push(entry) {
        Ok(()) => {}
        Err(_) => unreachable!(),
    }
}
