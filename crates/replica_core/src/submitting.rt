//! A client submits a transaction.
use crate::replay::Replay;
use abci::Application;
use batch_pool::SubmitFault;
use ledger_model::SubmitRefusal;
use std::alloc::AllocError;

impl<A: Application> Replay<A> {
    ghost use Rattle.std.specs.Prelude.{◌≡◌, IfOk, OnErr};
    ghost use Rattle.replica_core.specs.Steps.{submit_held, pool_with};

    /// Takes a submitted transaction into the pool, or refuses it.
    pub(crate) fn submit(&mut self, bytes: &[u8]) -> Result<Result<(), SubmitRefusal>, AllocError>
        ensures answer { IfOk result (λ r. r ≡ submit_held A.meaning self.old bytes.now) }
        ensures after { IfOk result (λ r. self.new ≡ record self.old { pool = pool_with self.old.pool bytes.now r }) }
        ensures err { OnErr result (self.new ≡ self.old) }
    {
        match self.pool.submit(bytes, self.executor.app()) {
            Ok(()) => Ok(Ok(())),
            Err(SubmitFault::Refused(refusal)) => Ok(Err(refusal)),
            Err(SubmitFault::NoMemory) => Err(AllocError),
        }
    }
}
