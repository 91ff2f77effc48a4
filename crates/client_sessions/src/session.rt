//! The state of a client's session: which replica it talks to, and the greatest height that the client has seen.
use crate::Targets;
use crate::answer::Answer;
use crate::reply_buffer::is_too_long;
use crate::request::Request;
use ledger_model::{Height, ReplicaId};
use std::marker::Model;

/// The state of a session between two requests.
#[derive(Debug, Drop)]
pub struct Session {
    replica: ReplicaId,
    greatest: Height,
}

impl Model for Session {
    ghost use Rattle.ledger_model.specs.Sessions.{Session as SessionView};

    ghost Value = { SessionView };

    ghost view = { λ s. record { replica = s.replica; greatest = s.greatest } };
}

impl Session {
    ghost use Rattle.std.specs.Prelude.{◌≡◌, ◌<◌, ◌≤◌, ◌||◌, nat_lt};
    ghost use Rattle.ledger_model.specs.Sessions.{Submit, Query, Height as AskHeight, Block, Switch};
    ghost use Rattle.client_sessions.specs.Requests.{asked_for};
    ghost use Rattle.client_sessions.specs.Answers.{reply_body, FitsReply};
    ghost use Rattle.client_sessions.specs.Answering.{AnswersOneRequest};

    /// A session that talks to replica 0, whose client has seen no height.
    pub fn new() -> Self
        ensures { result ≡ record { replica = 0; greatest = 0 } }
    {
        Session {
            replica: ReplicaId::new(0),
            greatest: Height::new(0),
        }
    }

    /// The replica that the session talks to.
    pub fn replica(&self) -> ReplicaId
        ensures { result ≡ self.now.replica }
    {
        self.replica
    }

    /// Submits a transaction to the replica. Its answer is a receipt if the pool takes the transaction.
    fn submit<T: Targets>(&self, targets: &mut T, tx: &[u8]) -> Answer
        requires { self.now.replica < T.replicas targets.old }
        ensures answers { AnswersOneRequest T.asks (T.replicas targets.old) targets.old targets.new self.now (Submit tx.now) (reply_body result) self.now }
        ensures short { FitsReply result }
        ensures count { T.replicas targets.new ≡ T.replicas targets.old }
    {
        match targets.submit(self.replica, tx) {
            Ok(Ok(index)) => Answer::Receipt(self.replica, index),
            Ok(Err(refusal)) => Answer::Refused(refusal),
            Err(fault) => Answer::Faulted(fault),
        }
    }

    /// Queries the replica for a key, and raises the greatest height to that of the answer.
    fn query<T: Targets>(&mut self, targets: &mut T, min_height: u32, key: &[u8]) -> Answer
        requires { self.old.replica < T.replicas targets.old }
        ensures answers { AnswersOneRequest T.asks (T.replicas targets.old) targets.old targets.new self.old (Query min_height key.now) (reply_body result) self.new }
        ensures short { FitsReply result }
        ensures never_falls { self.old.greatest ≤ self.new.greatest }
        ensures replica { self.new.replica ≡ self.old.replica }
        ensures count { T.replicas targets.new ≡ T.replicas targets.old }
    {
        let found = match targets.query(self.replica, key) {
            Ok(found) => found,
            Err(fault) => return Answer::Faulted(fault),
        };
        if self.is_behind(found.height, min_height) {
            return Answer::Behind;
        }
        if is_too_long(&found) {
            return Answer::TooLong;
        }
        self.greatest = found.height;
        Answer::Value(found)
    }

    /// Gets the committed height of the replica, and raises the greatest height to it.
    fn height<T: Targets>(&mut self, targets: &mut T) -> Answer
        requires { self.old.replica < T.replicas targets.old }
        ensures answers { AnswersOneRequest T.asks (T.replicas targets.old) targets.old targets.new self.old AskHeight (reply_body result) self.new }
        ensures short { FitsReply result }
        ensures never_falls { self.old.greatest ≤ self.new.greatest }
        ensures replica { self.new.replica ≡ self.old.replica }
        ensures count { T.replicas targets.new ≡ T.replicas targets.old }
    {
        let height = targets.height(self.replica);
        if self.is_behind(height, 0) {
            return Answer::Behind;
        }
        self.greatest = height;
        Answer::Height(height)
    }

    /// Gets the batch of a block from the replica.
    fn block<T: Targets>(&self, targets: &mut T, height: Height) -> Answer
        requires { self.now.replica < T.replicas targets.old }
        ensures answers { AnswersOneRequest T.asks (T.replicas targets.old) targets.old targets.new self.now (Block height) (reply_body result) self.now }
        ensures short { FitsReply result }
        ensures count { T.replicas targets.new ≡ T.replicas targets.old }
    {
        match targets.block(self.replica, height) {
            Ok(Some(batch)) => Answer::Block(height, batch),
            Ok(None) => Answer::NotHeld,
            Err(fault) => Answer::Faulted(fault),
        }
    }

    /// Talks to another replica from now on, if it exists.
    fn switch<T: Targets>(&mut self, targets: &T, replica: ReplicaId) -> Answer
        requires { self.old.replica < T.replicas targets.now }
        ensures answers { AnswersOneRequest T.asks (T.replicas targets.now) targets.now targets.now self.old (Switch replica) (reply_body result) self.new }
        ensures short { FitsReply result }
        ensures greatest { self.new.greatest ≡ self.old.greatest }
        ensures known { self.new.replica < T.replicas targets.now }
    {
        if usize::from(replica.number()) >= targets.count() {
            return Answer::NoReplica;
        }
        self.replica = replica;
        Answer::Switched
    }

    /// Whether the height is below the one that the client asked for, or below one that it has seen.
    fn is_behind(&self, height: Height, min_height: u32) -> bool
        ensures { result ≡ (nat_lt height min_height || nat_lt height self.now.greatest) }
    {
        height.number() < min_height || height.number() < self.greatest.number()
    }

    /// The answer to a request, by what the session's replica answers.
    pub(crate) fn answer<T: Targets>(&mut self, targets: &mut T, request: Request<'_>) -> Answer
        requires { self.old.replica < T.replicas targets.old }
        ensures answers { AnswersOneRequest T.asks (T.replicas targets.old) targets.old targets.new self.old (asked_for request.entry) (reply_body result) self.new }
        ensures short { FitsReply result }
        ensures never_falls { self.old.greatest ≤ self.new.greatest }
        ensures known { self.new.replica < T.replicas targets.new }
        ensures count { T.replicas targets.new ≡ T.replicas targets.old }
    {
        match request {
            Request::Submit(tx) => self.submit(targets, tx),
            Request::Query { min_height, key } => self.query(targets, min_height, key),
            Request::Height => self.height(targets),
            Request::Block(height) => self.block(targets, height),
            Request::Switch(replica) => self.switch(targets, replica),
            Request::Malformed => Answer::Malformed,
        }
    }
}
