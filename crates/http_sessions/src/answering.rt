//! Answers a request by what the replicas answer.
ghost use Rattle.std.specs.Prelude.{◌≡◌, ◌<◌, ◌≤◌, ◌++◌, ◌∷◌, min, true, false, None, [], length, map, vec_capacity};
ghost use Rattle.std.specs.List.{FoldsTo, range_with_len};
ghost use Rattle.http_messages.specs.Questions.{question_view};
ghost use Rattle.http_sessions.specs.Exchanges.{Makes, Inquired, Shows};
ghost use Rattle.http_sessions.specs.Answering.{AsksAll, RepliesOrLoses, AnswersRequest, AnswersQuestion, AnswersChosen, AnswersIf, AnswersAt, AnswersStatus, AnswersInfo, AnswersQueryNow, AnswersQueryAt, AnswersQueryIf, AnswersBlockAt, AnswersLastBlock, AnswersBlockQuestion, AnswersPool, AnswersSync, AnswersCommit, AnswersMetrics, AnswersAllMetrics, most_replicas, exchanges_of_metrics};

use crate::answers::{
    block_answer, delivery_answer, fault_answer, info_answer, pool_answer, query_answer,
    query_answer_at, reply_to, status_answer, sync_answer,
};
use crate::choosing::{Choice, chosen};
use crate::targets::HttpTargets;
use http_messages::{
    Answer, Commitment, Question, ReplicaMetrics, Request, RequestFault, ServiceFault,
};
use ledger_model::{Height, ReplicaId};
use std::alloc::{AllocError, Global};

/// The most replicas that numbers of one byte can name.
const MOST_REPLICAS: usize = 256;

/// The bytes of a reply. The only error is allocation failure.
type Reply = Result<Vec<u8>, AllocError>;

/// How far a replica is.
fn status<T: HttpTargets>(alloc: Global, targets: &mut T, replica: ReplicaId) -> Reply
    requires { replica < T.replicas targets.old }
    ensures replies { AsksAll result (Makes T.asks T.inquires) targets.old targets.new (AnswersStatus replica) }
    ensures count { T.replicas targets.new ≡ T.replicas targets.old }
{
    let progress = targets.progress(replica);
    reply_to(alloc, &status_answer(replica, progress))
}

/// What a replica's application says of itself.
fn app_info<T: HttpTargets>(alloc: Global, targets: &mut T, replica: ReplicaId) -> Reply
    requires { replica < T.replicas targets.old }
    ensures replies { AsksAll result (Makes T.asks T.inquires) targets.old targets.new (AnswersInfo replica) }
    ensures count { T.replicas targets.new ≡ T.replicas targets.old }
{
    let info = targets.info(replica);
    reply_to(alloc, &info_answer(&info))
}

/// What a replica's application has under a key, as of its last block.
fn query<T: HttpTargets>(alloc: Global, targets: &mut T, replica: ReplicaId, key: &[u8]) -> Reply
    requires { replica < T.replicas targets.old }
    ensures replies { AsksAll result (Makes T.asks T.inquires) targets.old targets.new (AnswersQueryNow replica key.now) }
    ensures count { T.replicas targets.new ≡ T.replicas targets.old }
{
    let found = targets.query(replica, key);
    reply_to(alloc, &query_answer(key, &found))
}

/// The same, if its last block is at this height. Otherwise no query is made, which would be an entry of the history.
fn query_at<T: HttpTargets>(
    alloc: Global,
    targets: &mut T,
    replica: ReplicaId,
    key: &[u8],
    height: Height,
) -> Reply
    requires { replica < T.replicas targets.old }
    ensures replies { AsksAll result (Makes T.asks T.inquires) targets.old targets.new (AnswersQueryAt replica key.now height) }
    ensures count { T.replicas targets.new ≡ T.replicas targets.old }
{
    let committed = targets.height(replica);
    if committed.number() != height.number() {
        return reply_to(alloc, &Answer::Unanswered(ServiceFault::NotLastHeight));
    }
    let found = targets.query(replica, key);
    reply_to(alloc, &query_answer_at(height, key, &found))
}

/// What a replica's application has under a key, at the height that the request names: 0 is the last, as if none were named.
fn query_if<T: HttpTargets>(
    alloc: Global,
    targets: &mut T,
    replica: ReplicaId,
    key: &[u8],
    height: Option<Height>,
) -> Reply
    requires { replica < T.replicas targets.old }
    ensures replies { AsksAll result (Makes T.asks T.inquires) targets.old targets.new (AnswersQueryIf replica key.now height) }
    ensures count { T.replicas targets.new ≡ T.replicas targets.old }
{
    match height {
        Some(height) if height.number() > 0 => query_at(alloc, targets, replica, key, height),
        _ => query(alloc, targets, replica, key),
    }
}

/// A replica's block at a height.
fn block_at<T: HttpTargets>(
    alloc: Global,
    targets: &mut T,
    replica: ReplicaId,
    height: Height,
) -> Reply
    requires { replica < T.replicas targets.old }
    ensures replies { AsksAll result (Makes T.asks T.inquires) targets.old targets.new (AnswersBlockAt replica height) }
    ensures count { T.replicas targets.new ≡ T.replicas targets.old }
{
    let found = targets.block(replica, height);
    reply_to(alloc, &block_answer(height, &found))
}

/// A replica's block at its committed height.
fn last_block<T: HttpTargets>(alloc: Global, targets: &mut T, replica: ReplicaId) -> Reply
    requires { replica < T.replicas targets.old }
    ensures replies { AsksAll result (Makes T.asks T.inquires) targets.old targets.new (AnswersLastBlock replica) }
    ensures count { T.replicas targets.new ≡ T.replicas targets.old }
{
    let last = targets.height(replica);
    let found = targets.block(replica, last);
    reply_to(alloc, &block_answer(last, &found))
}

/// A replica's block at the height that the request names; if it names none, at the committed height.
fn block<T: HttpTargets>(
    alloc: Global,
    targets: &mut T,
    replica: ReplicaId,
    height: Option<Height>,
) -> Reply
    requires { replica < T.replicas targets.old }
    ensures replies { AsksAll result (Makes T.asks T.inquires) targets.old targets.new (AnswersBlockQuestion replica height) }
    ensures count { T.replicas targets.new ≡ T.replicas targets.old }
{
    match height {
        Some(height) => block_at(alloc, targets, replica, height),
        None => last_block(alloc, targets, replica),
    }
}

/// How many transactions wait in a replica's pool.
fn pool<T: HttpTargets>(alloc: Global, targets: &mut T, replica: ReplicaId) -> Reply
    requires { replica < T.replicas targets.old }
    ensures replies { AsksAll result (Makes T.asks T.inquires) targets.old targets.new (AnswersPool replica) }
    ensures count { T.replicas targets.new ≡ T.replicas targets.old }
{
    let size = targets.pool(replica);
    reply_to(alloc, &pool_answer(size))
}

/// Submits a transaction to a replica and, if its pool takes it, to the others.
fn sync<T: HttpTargets>(alloc: Global, targets: &mut T, replica: ReplicaId, tx: &[u8]) -> Reply
    requires { replica < T.replicas targets.old }
    ensures replies { AsksAll result (Makes T.asks T.inquires) targets.old targets.new (AnswersSync replica tx.now) }
    ensures count { T.replicas targets.new ≡ T.replicas targets.old }
{
    match targets.submit(replica, tx) {
        Ok(Ok(index)) => {
            targets.spread(replica, tx);
            reply_to(alloc, &sync_answer(replica, tx, Ok(Ok(index))))
        }
        Ok(Err(refusal)) => reply_to(alloc, &sync_answer(replica, tx, Ok(Err(refusal)))),
        Err(fault) => reply_to(alloc, &fault_answer(fault)),
    }
}

/// Submits a transaction to a replica and, if its pool takes it, to the others, and waits for a block that has it.
fn commit<T: HttpTargets>(alloc: Global, targets: &mut T, replica: ReplicaId, tx: &[u8]) -> Reply
    requires { replica < T.replicas targets.old }
    ensures replies { AsksAll result (Makes T.asks T.inquires) targets.old targets.new (AnswersCommit replica tx.now) }
    ensures count { T.replicas targets.new ≡ T.replicas targets.old }
{
    match targets.submit(replica, tx) {
        Ok(Ok(index)) => {
            targets.spread(replica, tx);
            let delivery = targets.wait(replica, tx, index);
            reply_to(alloc, &delivery_answer(replica, tx, index, delivery))
        }
        Ok(Err(refusal)) => reply_to(
            alloc,
            &Answer::BroadcastCommit {
                tx,
                commitment: Commitment::Refused(refusal),
            },
        ),
        Err(fault) => reply_to(alloc, &fault_answer(fault)),
    }
}

/// The metrics of one replica.
fn metrics<T: HttpTargets>(alloc: Global, targets: &mut T, replica: ReplicaId) -> Reply
    requires { replica < T.replicas targets.old }
    ensures replies { AsksAll result (Makes T.asks T.inquires) targets.old targets.new (AnswersMetrics replica) }
    ensures count { T.replicas targets.new ≡ T.replicas targets.old }
{
    match targets.metrics(replica) {
        Some(metrics) => reply_to(alloc, &Answer::Metrics(&[metrics])),
        None => reply_to(alloc, &Answer::Unanswered(ServiceFault::Stranger)),
    }
}

/// Appends the metrics of the first `count` replicas, for which there is room, and returns whether all showed theirs. If one doesn't, no
/// further replica is asked.
fn add_metrics<T: HttpTargets>(targets: &mut T, count: usize, all: &mut Vec<ReplicaMetrics>) -> bool
    requires few { count ≤ 256 }
    requires known { count ≤ T.replicas targets.old }
    requires empty { all.old.items ≡ [] }
    requires room { count ≤ vec_capacity all.old }
    ensures each { map (λ m. m.replica) all.new.items ≡ range_with_len 0 (length all.new.items) }
    ensures shown { result ≡ true → (length all.new.items ≡ count)
        × FoldsTo (Makes T.asks T.inquires) targets.old (exchanges_of_metrics all.new.items) targets.new }
    ensures stranger { result ≡ false → (length all.new.items < count)
        × FoldsTo (Makes T.asks T.inquires) targets.old (exchanges_of_metrics all.new.items ++ Inquired (Shows (length all.new.items) None) ∷ []) targets.new }
    ensures count { T.replicas targets.new ≡ T.replicas targets.old }
{
    for number in 0..count {
        let Some(metrics) = targets.metrics(ReplicaId::new(number as u8)) else {
            return false;
        };
        all.push_reserved(metrics);
    }
    true
}

/// The metrics of all replicas, in order, if each shows its own.
fn all_metrics<T: HttpTargets>(alloc: Global, targets: &mut T) -> Reply
    ensures replies { RepliesOrLoses result (Makes T.asks T.inquires) targets.old targets.new
        (AnswersAllMetrics (min (T.replicas targets.old) most_replicas)) }
    ensures count { T.replicas targets.new ≡ T.replicas targets.old }
{
    let count = targets.count().min(MOST_REPLICAS);
    let mut all = Vec::with_capacity(alloc, count)?;
    if !add_metrics(targets, count, &mut all) {
        return reply_to(alloc, &Answer::Unanswered(ServiceFault::Stranger));
    }
    reply_to(alloc, &Answer::Metrics(&all))
}

/// Asks a replica, which exists.
fn answer_at<T: HttpTargets>(
    alloc: Global,
    question: &Question,
    targets: &mut T,
    replica: ReplicaId,
) -> Reply
    requires { replica < T.replicas targets.old }
    ensures replies { AsksAll result (Makes T.asks T.inquires) targets.old targets.new
        (AnswersAt replica (question_view question.now)) }
    ensures count { T.replicas targets.new ≡ T.replicas targets.old }
{
    match question {
        Question::Page => reply_to(alloc, &Answer::Page),
        Question::Health => reply_to(alloc, &Answer::Health),
        Question::Status => status(alloc, targets, replica),
        Question::AbciInfo => app_info(alloc, targets, replica),
        Question::AbciQuery { key, height } => query_if(alloc, targets, replica, key, *height),
        Question::Block { height } => block(alloc, targets, replica, *height),
        Question::UnconfirmedTxs => pool(alloc, targets, replica),
        Question::BroadcastSync { tx } => sync(alloc, targets, replica, tx),
        Question::BroadcastCommit { tx } => commit(alloc, targets, replica, tx),
        Question::Metrics => metrics(alloc, targets, replica),
    }
}

/// Asks a replica, if it exists.
fn answer_if<T: HttpTargets>(
    alloc: Global,
    question: &Question,
    targets: &mut T,
    replica: ReplicaId,
) -> Reply
    ensures replies { AsksAll result (Makes T.asks T.inquires) targets.old targets.new
        (AnswersIf (T.replicas targets.old) replica (question_view question.now)) }
    ensures count { T.replicas targets.new ≡ T.replicas targets.old }
{
    if usize::from(replica.number()) < targets.count() {
        answer_at(alloc, question, targets, replica)
    } else {
        reply_to(alloc, &Answer::Unanswered(ServiceFault::NoReplica))
    }
}

/// Asks the first of those replicas that have committed most, or least. Each is asked for its height before.
fn answer_by_choice<T: HttpTargets>(
    alloc: Global,
    question: &Question,
    targets: &mut T,
    choice: Choice,
) -> Reply
    ensures replies { AsksAll result (Makes T.asks T.inquires) targets.old targets.new
        (AnswersChosen choice (T.replicas targets.old) (question_view question.now)) }
    ensures count { T.replicas targets.new ≡ T.replicas targets.old }
{
    let count = targets.count().min(MOST_REPLICAS);
    if count == 0 {
        return reply_to(alloc, &Answer::Unanswered(ServiceFault::NoReplica));
    }
    let replica = chosen(targets, count, choice);
    answer_at(alloc, question, targets, replica)
}

/// Asks the replica that the request names. If it names none, asks the first of those that have committed most for what is committed, gives a
/// transaction to the first of those that have committed least, and asks all for metrics, and replica 0 for the rest.
fn answer_question<T: HttpTargets>(
    alloc: Global,
    question: &Question,
    named: Option<ReplicaId>,
    targets: &mut T,
) -> Reply
    ensures replies { RepliesOrLoses result (Makes T.asks T.inquires) targets.old targets.new
        (AnswersQuestion (T.replicas targets.old) named (question_view question.now)) }
    ensures count { T.replicas targets.new ≡ T.replicas targets.old }
{
    match (named, question) {
        (Some(replica), question) => answer_if(alloc, question, targets, replica),
        (None, Question::Metrics) => all_metrics(alloc, targets),
        (
            None,
            Question::Status
            | Question::AbciInfo
            | Question::AbciQuery { .. }
            | Question::Block { .. },
        ) => answer_by_choice(alloc, question, targets, Choice::MostCommitted),
        (None, Question::BroadcastSync { .. } | Question::BroadcastCommit { .. }) => {
            answer_by_choice(alloc, question, targets, Choice::LeastCommitted)
        }
        (None, question) => answer_if(alloc, question, targets, ReplicaId::new(0)),
    }
}

/// The reply to what was asked, as [`parse`](http_messages::parse) returns it.
///
/// A request asks the replica that it names. If it names none, `Status`, `AbciInfo`, `AbciQuery` and `Block` ask all replicas for their
/// heights, and then the first of those that have committed most; so do `BroadcastSync` and `BroadcastCommit`, but the first of those that have
/// committed least, whose pool still has what any other one has; `Metrics` ask all replicas, and other questions replica 0. If there is no
/// such replica, or what was asked is a fault, no replica is asked. If the state that a replica's lock guards is another replica's, that is
/// the reply, and no further replica is asked. The only error is allocation failure: then the reply is
/// [`out_of_memory_reply`](http_messages::out_of_memory_reply), and either nothing was asked, or all that the request asks was done.
pub fn answer<T: HttpTargets>(
    alloc: Global,
    asked: &Result<Request, RequestFault>,
    targets: &mut T,
) -> Result<Vec<u8>, AllocError>
    // The exchanges are those by which the request is answered, and the reply is that of the answer.
    ensures replies { RepliesOrLoses result (Makes T.asks T.inquires) targets.old targets.new (AnswersRequest (T.replicas targets.old) asked.now) }
    ensures count { T.replicas targets.new ≡ T.replicas targets.old }
{
    match asked {
        Ok(request) => answer_question(alloc, &request.question, request.replica, targets),
        Err(fault) => reply_to(alloc, &Answer::Fault(*fault)),
    }
}
