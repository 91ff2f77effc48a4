//! Signs the statements that are due as a round opens.
ghost use Rattle.std.specs.Prelude.{◌≡◌, ◌+◌, ◌<◌, ◌≤◌, ◌∷◌, [], length, true, map, IfOk, IfSome};
ghost use Rattle.std.specs.List.{AllByRecursion};
ghost use Rattle.ledger_model.specs.Limits.{max_signature_len};
ghost use Rattle.ledger_model.specs.Signatures.{verifies};
ghost use Rattle.ledger_model.specs.Spelling.{statement_bytes, IsStatement, IsFrame};
ghost use Rattle.key_ring.specs.Signers.{leaves_of, public_key_of, signed_with};
ghost use Rattle.instance.specs.Laws.{IsFrameMade};
ghost use Rattle.replica_core.specs.Signing.{planned_count, due_in, plan_spelled, SignsPlans};
ghost use Rattle.replica_core.specs.ChosenEnds.{IsVerifiedMade};

use height_row::RoundClosing;
use instance::{OwnFrame, RoundEffects, RoundPlan, RoundStatement};
use key_ring::{SignFault, Signer};
use signed_frames::UnsignedFrame;
use std::alloc::{AllocError, Global};

/// The plan for one open height, with its statement encoded.
#[derive(Drop)]
struct Spelled {
    statement: Option<UnsignedFrame>,
    ending: RoundEffects,
}

/// The number of statements that are due.
pub(crate) fn count_due(plans: &[RoundPlan]) -> usize
    ensures { result ≡ due_in plans.now }
{
    plans.iter().filter(|plan| plan.statement.is_some()).count()
}

/// The plan with its statement encoded.
fn spell(alloc: Global, plan: RoundPlan) -> Result<Spelled, AllocError>
    requires { IfSome plan.statement IsStatement }
    ensures { IfOk result (λ spelled. plan_spelled spelled ≡ plan) }
{
    let RoundPlan { statement, ending } = plan;
    let statement = match statement {
        Some(statement) => Some(UnsignedFrame::new(alloc, statement)?),
        None => None,
    };
    Ok(Spelled { statement, ending })
}

/// The plans with their statements encoded, in order.
fn spell_all(alloc: Global, plans: Vec<RoundPlan>) -> Result<Vec<Spelled>, AllocError>
    requires { AllByRecursion (λ plan. IfSome plan.statement IsStatement) plans.items }
    ensures { IfOk result (λ spelled. map plan_spelled spelled.items ≡ plans.items) }
{
    let mut spelled = Vec::with_capacity(alloc, plans.len())?;
    for plan in plans {
        spelled.push(spell(alloc, plan)?)?;
    }
    Ok(spelled)
}

/// The statement's signature by the next leaf. That leaf is used afterwards, even if memory runs out.
fn sign(alloc: Global, signer: &mut Signer, unsigned: &UnsignedFrame) -> Result<Vec<u8>, AllocError>
    requires leaf { signer.old.used < leaves_of signer.old.secret }
    ensures signature { IfOk result (λ signature. signature.items ≡ signed_with signer.old.secret signer.old.used (statement_bytes unsigned.now)) }
    ensures verifies { IfOk result (λ signature. verifies (public_key_of signer.old.secret) (statement_bytes unsigned.now) signature.items ≡ true) }
    ensures short { IfOk result (λ signature. length signature.items ≤ max_signature_len) }
    ensures used { signer.new ≡ record signer.old { used = signer.old.used + 1 } }
{
    match signer.sign(alloc, unsigned.statement_bytes()) {
        Ok(signature) => Ok(signature),
        Err(SignFault::NoMemory) => Err(AllocError),
        Err(SignFault::Exhausted) => unreachable!(),
    }
}

/// The statement signed with the next leaf, and the room to keep it. That leaf is used afterwards, even if memory runs out.
fn signed(
    alloc: Global,
    signer: &mut Signer,
    unsigned: UnsignedFrame,
) -> Result<OwnFrame, AllocError>
    requires leaf { signer.old.used < leaves_of signer.old.secret }
    ensures statement { IfOk result (λ own. own.statement ≡ unsigned) }
    ensures signature { IfOk result (λ own. own.signature ≡ signed_with signer.old.secret signer.old.used (statement_bytes own.statement)) }
    ensures verifies { IfOk result (λ own. verifies (public_key_of signer.old.secret) (statement_bytes own.statement) own.signature ≡ true) }
    ensures frame { IfOk result (λ own. IsFrame own) }
    ensures used { signer.new ≡ record signer.old { used = signer.old.used + 1 } }
{
    let signature = sign(alloc, signer, &unsigned)?;
    let frame = unsigned.with_signature(&signature)?;
    // This call shows the proof that the frame can be encoded.
    let _ = frame.statement();
    OwnFrame::new(alloc, frame)
}

/// How one height closes its round: its statement, if it has one, is signed with the next leaf.
fn make(alloc: Global, signer: &mut Signer, spelled: Spelled) -> Result<RoundClosing, AllocError>
    requires leaf { signer.old.used + planned_count (plan_spelled spelled) ≤ leaves_of signer.old.secret }
    ensures ending { IfOk result (λ closing. closing.ending ≡ spelled.ending) }
    ensures signs { IfOk result (λ closing. SignsPlans signer.old.secret signer.old.used (plan_spelled spelled ∷ []) (closing.made ∷ [])) }
    ensures verified { IfOk result (λ closing. IsVerifiedMade (public_key_of signer.old.secret) closing.made) }
    ensures frame { IfOk result (λ closing. IsFrameMade closing.made) }
    ensures used { signer.new ≡ record signer.old { used = signer.old.used + planned_count (plan_spelled spelled) } }
{
    let Spelled { statement, ending } = spelled;
    let made = match statement {
        Some(unsigned) => RoundStatement::Sent(signed(alloc, signer, unsigned)?),
        None => RoundStatement::Unsent,
    };
    Ok(RoundClosing { ending, made })
}

/// How each height closes its round, in order of heights: each statement that is due is signed with the next leaf.
/// Encodes all statements before it signs the first. If memory runs out, some leaves may be used without a statement.
pub(crate) fn make_all(
    alloc: Global,
    signer: &mut Signer,
    plans: Vec<RoundPlan>,
) -> Result<Vec<RoundClosing>, AllocError>
    requires spelled { AllByRecursion (λ plan. IfSome plan.statement IsStatement) plans.items }
    requires leaves { signer.old.used + due_in plans.items ≤ leaves_of signer.old.secret }
    ensures endings { IfOk result (λ closings. map (λ c. c.ending) closings.items ≡ map (λ plan. plan.ending) plans.items) }
    // Each height sends the statement of its plan, signed.
    ensures signs { IfOk result (λ closings. SignsPlans signer.old.secret signer.old.used plans.items (map (λ c. c.made) closings.items)) }
    ensures verified { IfOk result (λ closings. AllByRecursion (λ c. IsVerifiedMade (public_key_of signer.old.secret) c.made) closings.items) }
    ensures frames { IfOk result (λ closings. AllByRecursion (λ c. IsFrameMade c.made) closings.items) }
    // Each statement uses one leaf.
    ensures used { IfOk result (λ _. signer.new ≡ record signer.old { used = signer.old.used + due_in plans.items }) }
    ensures secret { signer.new.secret ≡ signer.old.secret }
    ensures least { signer.old.used ≤ signer.new.used }
    ensures most { signer.new.used ≤ signer.old.used + due_in plans.items }
{
    let mut closings = Vec::with_capacity(alloc, plans.len())?;
    for spelled in spell_all(alloc, plans)? {
        closings.push(make(alloc, signer, spelled)?)?;
    }
    Ok(closings)
}
