//! How many delivered frames a replica accepted, and how many it ignored for each cause.
ghost use Rattle.std.specs.Prelude.{◌≡◌, ◌<◌};
ghost use Rattle.ledger_model.specs.declared.reply.Ignored.{Ignored};
ghost use Rattle.http_messages.specs.FrameCounts.{counted, ignored_for, is_accepted, is_ignored_for, cause_place};

use ledger_model::Ignored;

/// The number of causes.
const CAUSE_COUNT: usize = 11;

/// Numbers of delivered frames, by the replica's answer.
#[derive(Clone, Copy, Debug)]
pub struct FrameCounts {
    /// How many it accepted.
    pub accepted: u64,
    /// How many it ignored, for each cause, in the order of the causes' numbers.
    pub ignored: [u64; CAUSE_COUNT],
}

/// The place of a cause among the counts.
fn place_of(cause: Ignored) -> usize
    ensures place { result ≡ cause_place cause }
    ensures below { result < 11 }
{
    usize::from(cause.number() - 1)
}

impl FrameCounts {
    /// The counts before any frame.
    pub fn new() -> Self
        ensures accepted { result.accepted ≡ 0 }
        ensures ignored { (cause : Ignored) → ignored_for result cause ≡ 0 }
    {
        FrameCounts {
            accepted: 0,
            ignored: [0; CAUSE_COUNT],
        }
    }

    /// How many frames were ignored for this cause.
    pub fn ignored_for(&self, cause: Ignored) -> u64
        ensures { result ≡ ignored_for self.now cause }
    {
        self.ignored[place_of(cause)]
    }

    /// Counts one more frame, which got this answer. A count stays at 2^64 - 1.
    pub fn count(&mut self, answer: Result<(), Ignored>)
        ensures accepted { self.new.accepted ≡ counted (is_accepted answer) self.old.accepted }
        ensures ignored { (cause : Ignored) → ignored_for self.new cause ≡ counted (is_ignored_for cause answer) (ignored_for self.old cause) }
    {
        match answer {
            Ok(()) => self.accepted = self.accepted.saturating_add(1),
            Err(cause) => {
                let place = place_of(cause);
                self.ignored[place] = self.ignored[place].saturating_add(1);
            }
        }
    }
}
