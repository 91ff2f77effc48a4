//! The application runs the next decided block.
use crate::replay::Replay;
use abci::Application;
use ledger_model::{Batch, BlockResult, Height, NothingDecided};
use std::alloc::{AllocError, Global};

impl<A: Application> Replay<A> {
    ghost use Rattle.std.specs.Prelude.{◌≡◌, ◌<◌, length, IfOk, IfSome, OnErr};
    ghost use Rattle.std.specs.Option.{option_copied};
    ghost use Rattle.ledger_model.specs.Limits.{max_height};
    ghost use Rattle.ledger_model.specs.Replies.{block_reply};
    ghost use Rattle.replica_core.specs.Replays.{IsOneCluster};
    ghost use Rattle.replica_core.specs.Steps.{next_decided, execute_held, with_block, after_execute};

    /// The batch that is decided for the height after the committed ones, if one is.
    fn next_decided(&self) -> Option<&Batch>
        ensures decided { option_copied result ≡ next_decided self.now }
        ensures one { IsOneCluster self.now }
        ensures low { IfSome (next_decided self.now) (λ _. length self.now.commits < max_height) }
    {
        self.rows.decided_at(Height::new(self.height() + 1))
    }

    /// Runs a block. Reserves the room for it first, so that allocation failure in the application leaves what was committed.
    fn run(&mut self, alloc: Global, block: Batch) -> Result<BlockResult, AllocError>
        requires low { length self.old.commits < max_height }
        ensures answer { IfOk result (λ r. r ≡ block_reply A.meaning self.old.config.kind self.old.commits block) }
        ensures after { IfOk result (λ _. self.new ≡ with_block A.meaning self.old block) }
        ensures err { OnErr result (self.new ≡ self.old) }
    {
        self.committed.reserve(1)?;
        let result = self.executor.execute(alloc, &block)?;
        self.pool.after_block(&block, self.executor.app());
        match self.committed.push(block) {
            Ok(()) => Ok(result),
            Err(_) => unreachable!(),
        }
    }

    /// Runs the block of the height after the committed ones, if it is decided.
    pub(crate) fn execute(
        &mut self,
        alloc: Global,
    ) -> Result<Result<BlockResult, NothingDecided>, AllocError>
        ensures answer { IfOk result (λ r. r ≡ execute_held A.meaning self.old) }
        ensures one { IsOneCluster self.old }
        ensures after { IfOk result (λ _. self.new ≡ after_execute A.meaning self.old (next_decided self.old)) }
        ensures err { OnErr result (self.new ≡ self.old) }
    {
        let Some(decided) = self.next_decided() else {
            return Ok(Err(NothingDecided));
        };
        let block = decided.copy()?;
        Ok(Ok(self.run(alloc, block)?))
    }
}
