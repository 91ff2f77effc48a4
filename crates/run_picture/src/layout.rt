//! Where things are in a picture, in pixels.
ghost use Rattle.std.specs.Prelude.{◌≡◌, min};
ghost use Rattle.std.specs.Option.{option_copied};
ghost use Rattle.run_picture.specs.Layouts.{most_rounds, layout_of, column_x, row_y, lane_y, statement_y, slot_x, start_x, end_x, width_of, bottom_of, picture_height};

use crate::{Moment, Picture, SentFrame};
use ledger_model::{Config, Height, LastRound, ReplicaId, Statement};

/// The width of the names of replicas, and where the first round begins.
const LEFT: u64 = 104;
/// The height of the names of rounds, and where the first replica begins.
const TOP: u64 = 64;
/// The width of a round.
const COLUMN: u64 = 84;
/// The distance between replicas.
const ROW: u64 = 120;
/// The distance between heights at a replica.
const LANE: u64 = 18;
/// The width of the legend.
const LEGEND_WIDTH: u64 = 850;
/// The height of the legend below the last replica.
const LEGEND: u64 = 60;

/// Which rounds and which replicas a picture has.
#[derive(Clone, Copy)]
pub(crate) struct Layout {
    /// The first round.
    pub(crate) first: u32,
    /// The last round, if it isn't before the first.
    pub(crate) last: u32,
    /// The number of rounds that the furthest replica opened.
    pub(crate) opened: u64,
    pub(crate) config: Config,
}

/// The number of rounds that the furthest replica opened.
fn most_rounds(rounds: &[Option<u64>]) -> u64
    ensures { result ≡ most_rounds rounds.now }
{
    let mut most = 0;
    for opened in rounds {
        most = opened.unwrap_or(0).max(most);
    }
    most
}

/// The lesser of a round and a number of rounds.
fn lesser(last: u32, opened: u64) -> u32
    ensures { result ≡ min last opened }
{
    match u32::try_from(opened) {
        Ok(opened) => last.min(opened),
        Err(_) => last,
    }
}

impl Layout {
    /// The layout of a picture: the rounds of its part that some replica opened.
    pub(crate) fn of(picture: &Picture) -> Self
        ensures { result ≡ layout_of picture.now }
    {
        let opened = most_rounds(&picture.rounds);
        Layout {
            first: picture.part.first,
            last: lesser(picture.part.last.min(LastRound::NUMBER), opened),
            opened,
            config: picture.config,
        }
    }

    /// Where a round begins.
    pub(crate) fn column_x(&self, round: u32) -> u64
        ensures { result ≡ column_x self.now round }
    {
        LEFT + COLUMN * u64::from(round.saturating_sub(self.first))
    }
}

/// Where a replica's row begins.
pub(crate) fn row_y(replica: ReplicaId) -> u64
    ensures { result ≡ row_y replica }
{
    TOP + ROW * u64::from(replica.number())
}

/// Where a height is in a replica's row.
pub(crate) fn lane_y(replica: ReplicaId, height: Height) -> u64
    ensures { result ≡ lane_y replica height }
{
    row_y(replica) + LANE + LANE * u64::from(height.number() % 5)
}

/// Where what is about a statement is in a replica's row. What is no frame is below all heights.
pub(crate) fn statement_y(replica: ReplicaId, statement: Option<&Statement>) -> u64
    ensures { result ≡ statement_y replica (option_copied statement.entry) }
{
    match statement {
        Some(statement) => lane_y(replica, statement.height()),
        None => row_y(replica) + 6 * LANE,
    }
}

/// The place in a round of what comes from a replica.
fn slot_x(replica: ReplicaId) -> u64
    ensures { result ≡ slot_x replica }
{
    let number = u64::from(replica.number());
    12 * (number % 4) + 3 * (number / 4 % 4)
}

impl Layout {
    /// Where a frame begins as its sender sends it.
    pub(crate) fn start_x(&self, sent: &SentFrame) -> u64
        ensures { result ≡ start_x self.now sent.now }
    {
        self.column_x(sent.at.round) + 8 + 3 * (sent.place % 4) as u64
    }

    /// Where a frame of this replica ends as it is delivered.
    pub(crate) fn end_x(&self, at: &Moment, from: ReplicaId) -> u64
        ensures { result ≡ end_x self.now at.now from }
    {
        self.column_x(at.round) + 28 + slot_x(from) + 2 * (at.entry % 3) as u64
    }

    /// The width of the picture.
    pub(crate) fn width(&self) -> u64
        ensures { result ≡ width_of self.now }
    {
        (self.column_x(self.last) + COLUMN + 16).max(LEGEND_WIDTH)
    }

    /// Where the last row ends.
    pub(crate) fn bottom(&self) -> u64
        ensures { result ≡ bottom_of self.now }
    {
        TOP + ROW * u64::from(self.config.replicas)
    }

    /// The height of the picture.
    pub(crate) fn height(&self) -> u64
        ensures { result ≡ picture_height self.now }
    {
        self.bottom() + LEGEND
    }
}
