//! How each height closes its round if the replica signs nothing.
ghost use Rattle.std.specs.Prelude.{◌≡◌, map, IfOk};
ghost use Rattle.std.specs.List.{AllByRecursion};
ghost use Rattle.replica_core.specs.Signing.{nothing_made};

use height_row::RoundClosing;
use instance::{RoundEffects, RoundStatement};
use std::alloc::{AllocError, Global};

/// What a height makes if the replica sends no statement there.
fn nothing_made(mute: bool) -> RoundStatement
    ensures { result ≡ nothing_made mute }
{
    if mute {
        RoundStatement::Mute
    } else {
        RoundStatement::Unsent
    }
}

/// How each height closes its round, in order of heights, if the replica makes nothing: because it is mute, or because
/// it has nothing to send.
pub(crate) fn make_nothing(
    alloc: Global,
    endings: Vec<RoundEffects>,
    mute: bool,
) -> Result<Vec<RoundClosing>, AllocError>
    ensures endings { IfOk result (λ closings. map (λ c. c.ending) closings.items ≡ endings.items) }
    ensures nothing { IfOk result (λ closings. AllByRecursion (λ c. c.made ≡ nothing_made mute) closings.items) }
{
    let mut closings = Vec::with_capacity(alloc, endings.len())?;
    for ending in endings {
        let made = nothing_made(mute);
        closings.push(RoundClosing { ending, made })?;
    }
    Ok(closings)
}
