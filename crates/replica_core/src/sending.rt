//! The frames that a replica sends as a round opens.
ghost use Rattle.std.specs.Prelude.{◌≡◌, ◌++◌, IfOk, OnOk};
ghost use Rattle.std.specs.List.{flat_map};
ghost use Rattle.ledger_model.specs.Lawful.{addressee_of};
ghost use Rattle.replica_core.specs.RoundEnds.{sent_own};
ghost use Rattle.replica_core.specs.Sending.{frames_of_closing};

use height_row::RoundClosing;
use instance::{OwnFrame, RoundStatement};
use ledger_model::{Addressee, Config, Sent, Statement};
use std::alloc::{AllocError, Global};

/// To whom a statement goes: an acknowledgement to the owner of its phase, every other statement to all replicas.
fn addressee_of(config: &Config, statement: &Statement) -> Addressee
    ensures { result ≡ addressee_of config.now statement.now }
{
    match statement {
        Statement::Ack(ack) => Addressee::One(config.owner_of(ack.phase)),
        Statement::Report(_) | Statement::Lock(_) => Addressee::All,
    }
}

/// A statement of the replica's own, with its addressee.
fn sent_own(config: &Config, own: &OwnFrame) -> Result<Sent, AllocError>
    ensures { IfOk result (λ sent. sent ≡ sent_own config.now own.now) }
{
    let frame = own.frame();
    Ok(Sent {
        addressee: addressee_of(config, frame.statement()),
        frame: frame.share()?,
    })
}

/// Appends the frames of one height to those of the lower heights.
fn push_frames(
    sent: &mut Vec<Sent>,
    config: &Config,
    closing: &RoundClosing,
) -> Result<(), AllocError>
    ensures { OnOk result (sent.new.items ≡ sent.old.items ++ frames_of_closing config.now closing.now) }
{
    if let RoundStatement::Sent(own) = &closing.made {
        sent.push(sent_own(config, own)?)?;
    }
    for frame in closing.ending.sends_on() {
        sent.push(Sent {
            addressee: Addressee::All,
            frame: frame.clone()?,
        })?;
    }
    Ok(())
}

/// The frames of all heights, in order: for each height first its own statement, and then the locks that it sends on.
pub(crate) fn frames_to_send(
    alloc: Global,
    config: &Config,
    closings: &[RoundClosing],
) -> Result<Vec<Sent>, AllocError>
    ensures { IfOk result (λ sent. sent.items ≡ flat_map (frames_of_closing config.now) closings.now) }
{
    let mut sent = Vec::new(alloc);
    for closing in closings {
        push_frames(&mut sent, config, closing)?;
    }
    Ok(sent)
}
