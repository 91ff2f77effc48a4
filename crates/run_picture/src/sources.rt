//! Finds where delivered frames come from.
ghost use Rattle.std.specs.Prelude.{◌≡◌, List, map, IfOk, OnOk};
ghost use Rattle.run_picture.specs.declared.sent_frames.SentFrame.{SentFrame as SentFrameValue};
ghost use Rattle.run_picture.specs.Incoming.{AreIncoming, IsInOrder, IsNumbering};
ghost use Rattle.run_picture.specs.Sources.{arrival_of, source_of};

use crate::deliveries::Delivery;
use crate::frame_numbers::FrameNumbers;
use crate::incoming::IncomingFrames;
use crate::sent_frames::SentFrame;
use ledger_model::ReplicaId;
use std::alloc::{AllocError, Global};
use std::hash::RandomState;

/// A delivery, and the index of the sent frame that it comes from among those of the picture. No sent frame of the picture that has the
/// bytes of a delivery without a source goes to its replica.
pub struct Arrival {
    pub delivery: Delivery,
    pub source: Option<usize>,
}

// An own `Drop` keeps proofs short: an owner drops it by one call. See docs/WORKING.md.
impl Drop for Arrival {
    fn drop(self) {
        let Arrival {
            delivery: _delivery,
            source: _source,
        } = self;
    }
}

/// The index of the sent frame that a delivery comes from, if it comes from one. The incoming frames are those of its replica.
fn source_among(
    numbers: &FrameNumbers,
    incoming: &IncomingFrames,
    delivery: &Delivery,
) -> Result<Option<usize>, AllocError>
    requires { IsInOrder incoming.now.frames.items }
    ensures { IfOk result (λ source. (sent : List SentFrameValue) → IsNumbering sent numbers.now.strings numbers.now.numbers.items
        → AreIncoming sent numbers.now.numbers.items delivery.now.at.replica incoming.now.frames.items
        → source ≡ source_of sent delivery.now) }
{
    match numbers.strings.position_of(&delivery.bytes)? {
        Some(number) => Ok(incoming.source(number, delivery.at.round)),
        None => Ok(None),
    }
}

/// The index of the sent frame that a delivery comes from, if it comes from one. The incoming frames turn to its replica. The only error
/// is allocation failure.
fn find_source(
    alloc: Global,
    numbers: &FrameNumbers,
    sent: &[SentFrame],
    incoming: &mut IncomingFrames,
    delivery: &Delivery,
) -> Result<Option<usize>, AllocError>
    requires numbers { IsNumbering sent.now numbers.now.strings numbers.now.numbers.items }
    requires frames { AreIncoming sent.now numbers.now.numbers.items incoming.old.to incoming.old.frames.items }
    ensures frames { OnOk result (AreIncoming sent.now numbers.now.numbers.items incoming.new.to incoming.new.frames.items) }
    ensures source { IfOk result (λ source. source ≡ source_of sent.now delivery.now) }
{
    incoming.turn_to(alloc, numbers, sent, delivery.at.replica)?;
    source_among(numbers, incoming, delivery)
}

/// The deliveries, each with the sent frame that it comes from.
///
/// Hashes each sent frame and each delivery once. Finds the source of a delivery by binary search in the frames that go to its replica,
/// which it sorts anew where the next delivery is at another replica. The only error is allocation failure.
pub(crate) fn arrivals(
    alloc: Global,
    random: RandomState,
    sent: &[SentFrame],
    deliveries: Vec<Delivery>,
) -> Result<Vec<Arrival>, AllocError>
    ensures { IfOk result (λ arrivals. arrivals.items ≡ map (arrival_of sent.now) deliveries.items) }
{
    let numbers = FrameNumbers::of(alloc, random, sent)?;
    let mut incoming = IncomingFrames::of(alloc, &numbers, sent, ReplicaId::new(0))?;
    let mut arrivals = Vec::with_capacity(alloc, deliveries.len())?;
    for delivery in deliveries {
        let source = find_source(alloc, &numbers, sent, &mut incoming, &delivery)?;
        arrivals.push(Arrival { delivery, source })?;
    }
    Ok(arrivals)
}
