//! The part of a run that a picture shows, and where in a run something is.
ghost use Rattle.std.specs.Prelude.{◌≡◌, ◌<◌, ◌^◌, IfSome};
ghost use Rattle.std.specs.Option.{option_copied};
ghost use Rattle.run_picture.specs.Parts.{has_round, has_height, has_statement, drawn_round};

use ledger_model::{Height, ReplicaId, Statement};

/// The part of a run that a picture shows: the rounds `first` to `last`, and what is about one height, or about any. Round 0
/// is the time before the first round.
#[derive(Clone, Copy)]
pub struct Part {
    pub first: u32,
    pub last: u32,
    /// The one height that is shown; `None` shows all heights.
    pub height: Option<Height>,
}

/// Where in a run something is: an entry of a replica's history, and a round.
#[derive(Clone, Copy)]
pub struct Moment {
    pub replica: ReplicaId,
    /// The index of the entry, from 0 on.
    pub entry: usize,
    pub round: u32,
}

impl Part {
    /// The round's number, if the picture shows the round.
    pub(crate) fn drawn_round(&self, round: u64) -> Option<u32>
        ensures { result ≡ drawn_round self.now round }
    {
        let last = self.last;
        let number = u32::try_from(round).ok()?;
        if self.first <= number && number <= last {
            Some(number)
        } else {
            None
        }
    }

    /// Whether the picture shows what is about this height.
    pub(crate) fn has_height(&self, height: Height) -> bool
        ensures { result ≡ has_height self.now height }
    {
        match self.height {
            Some(wanted) => wanted == height,
            None => true,
        }
    }

    /// Whether the picture shows a frame with this statement. Bytes that are no frame are about no height.
    pub(crate) fn has_statement(&self, statement: Option<&Statement>) -> bool
        ensures { result ≡ has_statement self.now (option_copied statement.entry) }
    {
        match statement {
            Some(statement) => self.has_height(statement.height()),
            None => self.height.is_none(),
        }
    }
}
