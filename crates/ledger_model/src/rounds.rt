//! The four rounds of a phase, and which statements a replica reads in each.
ghost use Rattle.std.specs.Prelude.{◌≡◌, ◌<◌, ◌≤◌, ◌^◌};
ghost use Rattle.ledger_model.specs.Limits.{last_round};
ghost use Rattle.ledger_model.specs.Rounds.{phase_of, place_of};
ghost use Rattle.ledger_model.specs.Rules.{has_place, has_phase};
ghost use Rattle.ledger_model.specs.Places.{number_of};

use crate::ids::Phase;
use crate::statement::Statement;

/// The place of a round in its phase.
#[derive(Clone, Copy, PartialEq, Eq)]
pub enum Place {
    /// Each replica reports its proper values and the locks that it holds.
    Reports,
    /// The owner of the phase may lock a value.
    Lock,
    /// The replicas that took the lock acknowledge it.
    Acknowledgements,
    /// Each replica sends on the locks that it holds, and these release others.
    Release,
}

/// The place of a round in its phase. Rounds count from 1, in phases of four; round 0 comes before the first phase.
pub fn place_of(round: u64) -> Place
    requires { round < 2 ^ 33 }
    ensures { number_of result ≡ place_of round }
{
    match round % 4 {
        1 => Place::Reports,
        2 => Place::Lock,
        3 => Place::Acknowledgements,
        _ => Place::Release,
    }
}

/// The phase of a round.
pub fn phase_of(round: u32) -> Phase
    requires { round ≤ last_round }
    ensures { result ≡ phase_of round }
{
    Phase::new(round.div_ceil(4))
}

/// Whether a replica reads statements of this kind in rounds at this place.
pub fn has_place(place: Place, statement: &Statement) -> bool
    ensures { result ≡ has_place (number_of place) statement.now }
{
    match statement {
        Statement::Report(_) => place == Place::Reports,
        Statement::Lock(_) => place == Place::Lock || place == Place::Release,
        Statement::Ack(_) => place == Place::Acknowledgements,
    }
}

/// Whether the statement's phase fits the round: it is the round's phase or, for a lock in a lock-release round, that
/// or an earlier one.
pub fn has_phase(round: u64, statement: &Statement) -> bool
    requires { round < 2 ^ 33 }
    ensures { result ≡ has_phase round statement.now }
{
    let phase = round.div_ceil(4);
    match statement {
        Statement::Lock(lock) if place_of(round) == Place::Release => {
            u64::from(lock.phase.number()) <= phase
        }
        _ => u64::from(statement.phase().number()) == phase,
    }
}
