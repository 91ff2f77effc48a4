//! An executor: an application that runs one block after another.
ghost use Rattle.std.specs.Prelude.{◌≡◌, ◌≢◌, ◌<◌, ◌↔◌, [], IfOk, IfSome, IfErr, OnErr, IsErrOf, option_map};
ghost use Rattle.ledger_model.specs.Applications.{run};
ghost use Rattle.ledger_model.specs.Limits.{max_height};
ghost use Rattle.abci.specs.Meaning.{without_work};
ghost use Rattle.abci_executor.specs.Blocks.{IsReached, AddsBlock, IsQueryReply, ShowsBlocks, query_answer_of};

use crate::run_block;
use abci::{Application, Info, QueryFault};
use bytes::Bytes;
use ledger_model::{Batch, BlockResult, Height, QueryAnswer};
use std::alloc::{AllocError, Global};
use std::marker::Model;

/// An application that runs one block after another.
///
/// Contracts see the application's machine between blocks. Some blocks always led to that machine, and the contract of
/// each call is in terms of those blocks.
#[derive(Drop)]
pub struct Executor<A: Application> {
    app: A,
}

impl<A: Application> Model for Executor<A> {
    ghost use Rattle.ledger_model.specs.Applications.{Machine};
    ghost use Rattle.abci.specs.Meaning.{without_work};
    ghost use Rattle.abci_executor.specs.Blocks.{IsReached};

    ghost Value = { Machine };

    ghost view = { λ e. without_work (A.machine e.app) };

    ghost invariant = { λ e. IsReached A.meaning (without_work (A.machine e.app)) };
}

impl<A: Application> Executor<A> {
    /// Starts an application that has run no block, with InitChain. The only error is allocation failure.
    pub fn new(app: A) -> Result<Self, AllocError>
        requires { A.machine app ≡ run A.meaning (A.machine app).kind [] }
        ensures { IfOk result (λ e. e ≡ run A.meaning (A.machine app).kind []) }
    {
        let mut app = app;
        app.init_chain()?;
        Ok(Executor { app })
    }

    /// Runs the next block. At most [`Height::MAX`] blocks can be run; `height` returns how many were.
    ///
    /// The only error is allocation failure. It leaves the executor as it was.
    pub fn execute(&mut self, alloc: Global, batch: &Batch) -> Result<BlockResult, AllocError>
        requires { self.old.height < max_height }
        ensures ok { IfOk result (λ block. AddsBlock A.meaning self.old batch.now block self.new) }
        ensures err { OnErr result (self.new ≡ self.old) }
    {
        run_block(alloc, &mut self.app, batch)
    }

    /// The value under a key in the committed state, with the last block's height. The height must be 0 or the last block's.
    ///
    /// `NotHeld` comes exactly if the height is neither; `NoMemory` comes if memory runs out.
    pub fn query(&self, key: &[u8], height: u32) -> Result<QueryAnswer, QueryFault>
        ensures reply { IfSome (query_answer_of result) (IsQueryReply A.meaning self.now key.now height) }
        ensures not_held { IsErrOf result QueryFault.NotHeld ↔ (height ≢ 0) × (height ≢ self.now.height) }
    {
        let held = self.app.query(key, height)?;
        Ok(QueryAnswer {
            height: Height::new(self.height()),
            value: shared(held)?,
        })
    }

    /// The number of blocks that were run: the committed height.
    pub fn height(&self) -> u32
        ensures height { result ≡ self.now.height }
        // Some blocks led to the machine.
        ensures reached { IsReached A.meaning self.now }
    {
        let info = self.app.info();
        info.height
    }

    /// The number of blocks that were run, and the hash of the state.
    pub fn info(&self) -> Info
        ensures { ShowsBlocks A.meaning self.now result }
    {
        self.app.info()
    }

    /// The application, to check transactions with.
    pub fn app(&self) -> &A
        ensures { without_work (A.machine result.now) ≡ self.now }
    {
        &self.app
    }
}

/// The value as bytes that can be shared. The only fault is allocation failure.
fn shared(held: Option<Vec<u8>>) -> Result<Option<Bytes>, QueryFault>
    ensures bytes { IfOk result (λ shared. shared ≡ option_map (λ v. v.items) held) }
    ensures fault { IfErr result (λ fault. fault ≡ QueryFault.NoMemory) }
{
    let Some(bytes) = held else {
        return Ok(None);
    };
    match Bytes::from_vec(bytes) {
        Ok(shared) => Ok(Some(shared)),
        Err(_) => Err(QueryFault::NoMemory),
    }
}
