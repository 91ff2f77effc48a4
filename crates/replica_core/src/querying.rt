//! The replica answers a query.
use crate::replay::Replay;
use abci::{Application, QueryFault};
use ledger_model::{NotHeld, QueryAnswer};
use std::alloc::AllocError;

impl<A: Application> Replay<A> {
    ghost use Rattle.std.specs.Prelude.{◌≡◌, IfOk};
    ghost use Rattle.ledger_model.specs.Replies.{query_reply};

    /// The value under a key in the committed state. The height must be 0 or the committed height. Changes nothing.
    pub(crate) fn query(
        &self,
        key: &[u8],
        height: u32,
    ) -> Result<Result<QueryAnswer, NotHeld>, AllocError>
        ensures { IfOk result (λ r. r ≡ query_reply A.meaning self.now.config.kind self.now.commits key.now height) }
    {
        match self.executor.query(key, height) {
            Ok(answer) => Ok(Ok(answer)),
            Err(QueryFault::NotHeld) => Ok(Err(NotHeld)),
            Err(QueryFault::NoMemory) => Err(AllocError),
        }
    }
}
