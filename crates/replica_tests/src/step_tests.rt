//! Replica 0 of four applies events; its ring has only its own key. `examples/refusals.txt` shows some refusals.
ghost use Rattle.std.specs.Prelude.{◌≡◌, ◌∷◌, [], IfOk};
ghost use Rattle.key_ring.specs.Signers.{public_key_of};

use crate::fault::Fault;
use app_kinds::AnyKind;
use bytes::Bytes;
use key_ring::{KeyRing, Signer};
use ledger_model::{Addressee, AppKind, ApplyFault, Config, Event, Height, Key, ReplicaId};
use lm_ots::{Identifier, Params, Seed, TreeHeight, Width};
use locked_replica::{EntryView, EventView, ReplyView, RoundEndView, State};
use std::alloc::{AllocError, Global};
use std::hash::RandomState;
use std::test::Fail;

const PARAMS: Params = Params {
    width: Width::W4,
    height: TreeHeight::H5,
};

fn signer(alloc: Global) -> Result<Signer, AllocError> {
    Signer::new(alloc, PARAMS, Identifier::new([7; 16]), Seed::new([9; 32]))
}

fn ring_of(alloc: Global, signer: &Signer) -> Result<KeyRing, AllocError>
    ensures { IfOk result (λ ring. ring ≡ public_key_of signer.now.secret ∷ []) }
{
    Ok(KeyRing::new(vec![in alloc; signer.public()]?))
}

fn new_replica(alloc: Global, random: RandomState) -> Result<State<AnyKind>, Fault> {
    let config = Config::new(4, 1, AppKind::KvStore)?;
    let signer = signer(alloc)?;
    let ring = ring_of(alloc, &signer)?;
    let app = AnyKind::new(alloc, config.kind);
    let id = ReplicaId::new(0);
    Ok(State::new(alloc, config, id, signer, ring, app, [random, random])?)
}

fn apply(state: &mut State<AnyKind>, event: Event) -> Result<usize, ApplyFault> {
    state.apply(event)
}

fn entry_at(state: &State<AnyKind>, index: usize) -> Option<EntryView<'_>> {
    state.entry(index)
}

// Whether the replica has these numbers: of its entries, its round, and its application's height; and whether it has no entry.
fn has_numbers(state: &State<AnyKind>, wanted: (usize, u32, u32, bool)) -> bool {
    (state.len(), state.clock(), state.height(), state.is_empty()) == wanted
}

// Whether it takes a transaction.
fn takes_one(state: &mut State<AnyKind>) -> Result<bool, ApplyFault> {
    let index = apply(state, Event::Submit(Bytes::from_static(b"a=1")))?;
    match entry_at(state, index) {
        Some(entry) => Ok(matches!(entry.reply(), ReplyView::Submitted(Ok(())))),
        None => Ok(false),
    }
}

// Whether the entry is a proposal of one transaction.
fn is_one(entry: &EntryView<'_>) -> bool {
    match entry.reply() {
        ReplyView::Proposed(Ok(batch)) => batch.transactions().len() == 1,
        _ => false,
    }
}

// Whether it opens height 1 with one transaction.
fn proposes_one(state: &mut State<AnyKind>) -> Result<bool, ApplyFault> {
    let index = apply(state, Event::Propose(Height::new(1)))?;
    match entry_at(state, index) {
        Some(entry) => Ok(is_one(&entry)),
        None => Ok(false),
    }
}

// Whether it takes a transaction, and opens height 1 with it.
fn opens_one(state: &mut State<AnyKind>) -> Result<bool, ApplyFault> {
    let is_taken = takes_one(state)?;
    Ok(proposes_one(state)? && is_taken)
}

// Whether one frame of this length is sent to all.
fn is_one_to_all(ended: &RoundEndView<'_>, len: usize) -> bool {
    match ended.frame(0) {
        Some(sent) => {
            ended.len() == 1 && sent.addressee == Addressee::All && sent.frame.len() == len
        }
        None => false,
    }
}

// Whether the entry is a round end that is not mute and sends one frame of this length to all.
fn sends_one(entry: &EntryView<'_>, len: usize) -> bool {
    match (entry.event(), entry.reply()) {
        (EventView::RoundEnd, ReplyView::RoundEnded(Ok(ended))) => {
            !ended.is_mute() && is_one_to_all(&ended, len)
        }
        _ => false,
    }
}

// Whether the first round opens, and a report is sent.
fn reports(state: &mut State<AnyKind>) -> Result<bool, ApplyFault> {
    let index = apply(state, Event::RoundEnd)?;
    match entry_at(state, index) {
        Some(entry) => Ok(sends_one(&entry, 2377)),
        None => Ok(false),
    }
}

// Whether the entry is a round end that is not mute and sends nothing.
fn sends_nothing(entry: &EntryView<'_>) -> bool {
    match entry.reply() {
        ReplyView::RoundEnded(Ok(ended)) => !ended.is_mute() && ended.is_empty(),
        _ => false,
    }
}

// Whether the next round opens, and nothing is sent.
fn opens_quietly(state: &mut State<AnyKind>) -> Result<bool, ApplyFault> {
    let index = apply(state, Event::RoundEnd)?;
    match entry_at(state, index) {
        Some(entry) => Ok(sends_nothing(&entry)),
        None => Ok(false),
    }
}

// Whether three more rounds open, and nothing is sent.
fn opens_three_quietly(state: &mut State<AnyKind>) -> Result<bool, ApplyFault> {
    for _ in 0..3 {
        if !opens_quietly(state)? {
            return Ok(false);
        }
    }
    Ok(true)
}

// Whether the reply is that no next block is decided.
fn has_no_block(state: &mut State<AnyKind>) -> Result<bool, ApplyFault> {
    let index = apply(state, Event::Execute)?;
    match entry_at(state, index) {
        Some(entry) => Ok(matches!(entry.reply(), ReplyView::Executed(Err(_)))),
        None => Ok(false),
    }
}

// A query for the empty key at the last height.
fn query(alloc: Global) -> Event {
    match Key::new(Vec::new(alloc)) {
        Ok(key) => Event::Query(key, Height::new(0)),
        Err(_) => unreachable!(),
    }
}

// Whether the answer to the query has height 0 and no value.
fn is_nothing(entry: &EntryView<'_>) -> bool {
    match entry.reply() {
        ReplyView::Queried(Ok(answer)) => answer.height.number() == 0 && answer.value.is_none(),
        _ => false,
    }
}

fn finds_nothing(state: &mut State<AnyKind>, alloc: Global) -> Result<bool, ApplyFault> {
    let index = apply(state, query(alloc))?;
    match entry_at(state, index) {
        Some(entry) => Ok(is_nothing(&entry)),
        None => Ok(false),
    }
}

// Whether a replica of the four that is not mute, with 31 leaves left, has neither decided height 1 nor committed it.
fn waits_at_one(state: &State<AnyKind>) -> bool {
    let height = Height::new(1);
    let is_undecided = state.decided_at(height).is_none() && state.block(height).is_none();
    let is_loud = !state.is_mute() && state.leaves_left() == 31;
    is_undecided && is_loud && state.config().replicas == 4 && state.id().number() == 0
}

// Whether its history is empty, and it then opens height 1 and sends a report as the first round opens.
fn begins_alone(state: &mut State<AnyKind>) -> Result<bool, ApplyFault> {
    let is_new = has_numbers(state, (0, 0, 0, true)) && entry_at(state, 0).is_none();
    let is_open = opens_one(state)?;
    let is_sent = reports(state)?;
    Ok(is_new && is_open && is_sent && has_numbers(state, (3, 1, 0, false)))
}

// Whether it opens three more rounds, sends nothing, and then has no block and no value.
fn decides_nothing(state: &mut State<AnyKind>, alloc: Global) -> Result<bool, ApplyFault> {
    let are_quiet = opens_three_quietly(state)?;
    let has_no_block = has_no_block(state)?;
    let finds_nothing = finds_nothing(state, alloc)?;
    Ok(are_quiet && has_no_block && finds_nothing && has_numbers(state, (8, 4, 0, false)))
}

// Whether it does both, and then waits at height 1.
fn waits_alone(state: &mut State<AnyKind>, alloc: Global) -> Result<bool, ApplyFault> {
    let begins = begins_alone(state)?;
    let decides_nothing = decides_nothing(state, alloc)?;
    Ok(begins && decides_nothing && waits_at_one(state))
}

fn new_one_waits_alone(alloc: Global, random: RandomState) -> Result<bool, Fault> {
    let mut state = new_replica(alloc, random)?;
    Ok(waits_alone(&mut state, alloc)?)
}

#[test]
fn a_replica_alone_reports_and_decides_nothing(rt: HostRuntime) -> Result<(), Fail> {
    let random = RandomState::new(&rt)?;
    assert!(rt; new_one_waits_alone(rt.alloc(), random)?);
    Ok(())
}
