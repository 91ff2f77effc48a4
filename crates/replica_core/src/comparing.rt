//! Whether another replica's reply is the one that is due.
ghost use Rattle.std.specs.Prelude.{◌≡◌, ◌↔◌, true, Some};
ghost use Rattle.ledger_model.specs.GrammarLaws.{IsBytes};
ghost use Rattle.replica_core.specs.ShownEnds.{IsShownAlike, AreShownAlike};

use ledger_model::{
    Batch, BlockResult, Height, Ignored, NotHeld, NothingDecided, ProposeRefusal, QueryAnswer,
    RetireRefusal, Sent, SubmitRefusal,
};

/// What a submit is answered.
type SubmissionReply = Result<(), SubmitRefusal>;

/// What a propose is answered.
type OpeningReply = Result<Batch, ProposeRefusal>;

/// What a delivery is answered.
type DeliveryReply = Result<(), Ignored>;

/// What a retirement is answered.
type RetirementReply = Result<Height, RetireRefusal>;

/// What an execution is answered.
type ExecutionReply = Result<BlockResult, NothingDecided>;

/// What a query is answered.
type QueryReply = Result<QueryAnswer, NotHeld>;

/// Whether both replies take the transaction, or refuse it for the same cause.
pub(crate) fn is_same_submitted(due: &SubmissionReply, shown: &SubmissionReply) -> bool
    ensures { result ≡ true ↔ due.now ≡ shown.now }
{
    match (due, shown) {
        (Ok(()), Ok(())) => true,
        (Err(one), Err(other)) => one == other,
        _ => false,
    }
}

/// Whether both replies open the height with the same batch, or refuse it for the same cause.
pub(crate) fn is_same_proposed(due: &OpeningReply, shown: &OpeningReply) -> bool
    ensures { result ≡ true ↔ due.now ≡ shown.now }
{
    match (due, shown) {
        (Ok(one), Ok(other)) => one == other,
        (Err(one), Err(other)) => one == other,
        _ => false,
    }
}

/// Whether both replies read the frame, or ignore it for the same cause.
pub(crate) fn is_same_delivered(due: &DeliveryReply, shown: &DeliveryReply) -> bool
    ensures { result ≡ true ↔ due.now ≡ shown.now }
{
    match (due, shown) {
        (Ok(()), Ok(())) => true,
        (Err(one), Err(other)) => one == other,
        _ => false,
    }
}

/// Whether both replies raise the floor to the same height, or refuse it for the same cause.
pub(crate) fn is_same_retired(due: &RetirementReply, shown: &RetirementReply) -> bool
    ensures { result ≡ true ↔ due.now ≡ shown.now }
{
    match (due, shown) {
        (Ok(one), Ok(other)) => one == other,
        (Err(one), Err(other)) => one == other,
        _ => false,
    }
}

/// Whether two results of a block are equal.
fn is_same_block(due: &BlockResult, shown: &BlockResult) -> bool
    ensures { result ≡ true ↔ due.now ≡ shown.now }
{
    due.height == shown.height
        && due.codes.as_slice() == shown.codes.as_slice()
        && due.hash == shown.hash
}

/// Whether both replies have the same result of a block, or both report that none is decided.
pub(crate) fn is_same_executed(due: &ExecutionReply, shown: &ExecutionReply) -> bool
    ensures { result ≡ true ↔ due.now ≡ shown.now }
{
    match (due, shown) {
        (Ok(one), Ok(other)) => is_same_block(one, other),
        (Err(_), Err(_)) => true,
        _ => false,
    }
}

/// Whether two answers of the application to a query are equal.
fn is_same_answer(due: &QueryAnswer, shown: &QueryAnswer) -> bool
    ensures { result ≡ true ↔ due.now ≡ shown.now }
{
    if due.height != shown.height {
        return false;
    }
    match (&due.value, &shown.value) {
        (Some(one), Some(other)) => one.as_slice() == other.as_slice(),
        (None, None) => true,
        _ => false,
    }
}

/// Whether both replies have the same answer to a query, or both report that the height is not held.
pub(crate) fn is_same_queried(due: &QueryReply, shown: &QueryReply) -> bool
    ensures { result ≡ true ↔ due.now ≡ shown.now }
{
    match (due, shown) {
        (Ok(one), Ok(other)) => is_same_answer(one, other),
        (Err(_), Err(_)) => true,
        _ => false,
    }
}

/// The same bytes; its contract adds that each is a byte.
fn whole(bytes: &[u8]) -> &[u8]
    ensures same { result.now ≡ bytes.now }
    ensures bytes { IsBytes result.now }
{
    bytes
}

/// The bytes of a frame.
fn bytes_of(sent: &Sent) -> &[u8]
    ensures frame { result.now ≡ sent.now.frame }
    ensures bytes { IsBytes result.now }
{
    whole(sent.frame.as_slice())
}

/// Whether the same bytes go to the same addressee.
fn is_same_sent(due: &Sent, shown: &Sent) -> bool
    ensures same { result ≡ true → due.now ≡ shown.now }
    ensures only { IsShownAlike due.now shown.now → result ≡ true }
{
    due.addressee == shown.addressee && bytes_of(due) == bytes_of(shown)
}

/// Whether both lists have the same frames, in the same order.
pub(crate) fn is_same_frames(due: &[Sent], shown: &[Sent]) -> bool
    ensures same { result ≡ true → due.now ≡ shown.now }
    ensures only { AreShownAlike due.now shown.now → result ≡ true }
{
    if due.len() != shown.len() {
        return false;
    }
    for (place, sent) in due.iter().enumerate() {
        if !is_same_sent(sent, &shown[place]) {
            return false;
        }
    }
    true
}
