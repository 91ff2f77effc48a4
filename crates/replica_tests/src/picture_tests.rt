//! Pictures of the worked runs: what is decided and given up, and how far a history is shown that breaks.
use crate::fault::Fault;
use crate::handing::{Part, handed_in};
use crate::playing::{history_of, played};
use crate::scripts::{PLAIN, RETIRED, Script};
use app_kinds::AnyKind;
use app_states::new_apps;
use ledger_model::ReplicaId;
use run_picture::{Fact, Mark, Part as Shown, Picture, picture_of};
use std::alloc::Global;
use std::hash::RandomState;
use std::test::Fail;

/// A row: which histories of a run are handed in, where the first breaks, which replicas decide height 1, and how often heights are given up.
struct Row {
    name: &'static str,
    script: Script,
    parts: &'static [(u8, Part)],
    first_break: Option<(u8, usize)>,
    deciders: &'static [u8],
    retired: usize,
}

const ROWS: [Row; 5] = [
    Row {
        name: "each replica decides once",
        script: PLAIN,
        parts: &[
            (3, Part::Whole),
            (0, Part::Whole),
            (2, Part::Whole),
            (1, Part::Whole),
        ],
        first_break: None,
        deciders: &[0, 1, 2, 3],
        retired: 0,
    },
    Row {
        name: "a history that wasn't handed in shows nothing",
        script: PLAIN,
        parts: &[(3, Part::Whole), (1, Part::Whole)],
        first_break: None,
        deciders: &[1, 3],
        retired: 0,
    },
    Row {
        name: "a changed history is shown up to the change",
        script: PLAIN,
        parts: &[
            (0, Part::Whole),
            (1, Part::Whole),
            (2, Part::Changed(5)),
            (3, Part::Whole),
        ],
        first_break: Some((2, 5)),
        deciders: &[0, 1, 3],
        retired: 0,
    },
    Row {
        name: "the break of the least replica is named",
        script: PLAIN,
        parts: &[
            (3, Part::Twice(3)),
            (2, Part::Whole),
            (1, Part::Whole),
            (0, Part::Changed(3)),
        ],
        first_break: Some((0, 3)),
        deciders: &[1, 2],
        retired: 0,
    },
    Row {
        name: "a height is given up once",
        script: RETIRED,
        parts: &[(0, Part::Whole)],
        first_break: None,
        deciders: &[0],
        retired: 1,
    },
];

/// All heights in the first 64 rounds.
const ALL: Shown = Shown {
    first: 0,
    last: 64,
    height: None,
};

/// The picture of a row.
fn picture_in(alloc: Global, random: RandomState, row: &Row) -> Result<Picture, Fault> {
    let simulation = played(alloc, random, row.script)?;
    let snapshot = history_of(&simulation, 0)?;
    let config = &snapshot.config;
    let histories = handed_in(alloc, &simulation, row.parts)?;
    let apps = new_apps::<AnyKind>(alloc, config.kind, usize::from(config.replicas))?;
    Ok(picture_of(alloc, config, &snapshot.ring, &histories, apps, ALL, random)?)
}

/// Whether the mark is that of a decision of height 1 by this replica.
fn is_decision(mark: &Mark, replica: u8) -> bool {
    matches!(&mark.fact, Fact::Decides(_))
        && mark.height.number() == 1
        && mark.at.replica == ReplicaId::new(replica)
}

/// Whether these replicas, in this order, decide height 1, and nobody decides anything else.
fn decides(picture: &Picture, deciders: &[u8]) -> bool {
    picture.decisions.len() == deciders.len()
        && picture
            .decisions
            .iter()
            .zip(deciders)
            .all(|(mark, replica)| is_decision(mark, *replica))
}

/// Whether nothing is shown of the replica's entries from this one on.
fn is_shown_up_to(picture: &Picture, replica: u8, entry: usize) -> bool {
    let replica = ReplicaId::new(replica);
    let sent = picture.sent.iter().all(|frame| frame.at.replica != replica
        || frame.at.entry < entry);
    let arrived = picture.arrivals.iter().all(|arrival| arrival.delivery.at.replica != replica
        || arrival.delivery.at.entry < entry);
    sent && arrived
}

/// Whether the picture breaks where the row says, and shows nothing of that history from there on.
fn breaks(picture: &Picture, first_break: Option<(u8, usize)>) -> bool {
    match (picture.first_break, first_break) {
        (None, None) => true,
        (Some(found), Some((replica, entry))) => {
            found.replica == ReplicaId::new(replica)
                && found.entry == entry
                && is_shown_up_to(picture, replica, entry)
        }
        _ => false,
    }
}

/// Whether the picture of a row is what the row says.
fn is_row_right(alloc: Global, random: RandomState, row: &Row) -> Result<bool, Fault> {
    let picture = picture_in(alloc, random, row)?;
    Ok(
        breaks(&picture, row.first_break)
            && decides(&picture, row.deciders)
            && picture.retired.len() == row.retired,
    )
}

/// The name of the first row whose picture is another, if there is one.
fn first_wrong_row(alloc: Global, random: RandomState) -> Result<Option<&'static str>, Fault> {
    for row in &ROWS {
        if !is_row_right(alloc, random, row)? {
            return Ok(Some(row.name));
        }
    }
    Ok(None)
}

#[test]
fn pictures_show_replays(rt: HostRuntime) -> Result<(), Fail> {
    let random = RandomState::new(&rt)?;
    assert_eq!(rt; first_wrong_row(rt.alloc(), random)?, None);
    Ok(())
}
