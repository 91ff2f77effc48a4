//! An application over a state.
use crate::app_state::AppState;
use abci::{Application, CheckKind, Info, QueryFault};
use ledger_model::{AppKind, Height, Tx};
use std::alloc::{AllocError, Global};
use std::marker::Model;

/// An application: its committed state, within a block its working state, and its height.
#[derive(Drop)]
pub struct StateMachine<S: AppState> {
    alloc: Global,
    /// The kind that its cluster says.
    kind: AppKind,
    committed: S,
    working: Option<S>,
    height: u32,
    /// The hash of the committed state.
    hash: [u8; 32],
}

impl<S: AppState> Model for StateMachine<S> {
    ghost use Rattle.std.specs.Prelude.{◌≡◌, ◌+◌, ◌<◌, ◌^◌};
    ghost use Rattle.std.specs.Option.{option_map, ForSome};
    ghost use Rattle.sha2.specs.Sha256.{sha256};
    ghost use Rattle.ledger_model.specs.Applications.{Machine};

    ghost Value = { Machine };

    ghost view = { λ m. record {
      kind = m.kind;
      committed = S.state m.committed;
      working = option_map S.state m.working;
      height = m.height;
    } };

    ghost invariant = { λ m. ForSome m.working (λ _. m.height + 1 < 2 ^ 32) × (m.hash ≡ sha256 (S.state m.committed)) };
}

impl<S: AppState> StateMachine<S> {
    ghost use Rattle.std.specs.Prelude.{◌≡◌, []};
    ghost use Rattle.ledger_model.specs.Applications.{run};

    /// The application before the first block, of a cluster of this kind.
    pub fn new(alloc: Global, kind: AppKind) -> Self
        ensures { result ≡ run (λ _. S.meaning) kind [] }
    {
        let committed = S::opening(alloc);
        let hash = committed.hash();
        StateMachine {
            alloc,
            kind,
            committed,
            working: None,
            height: 0,
            hash,
        }
    }
}

impl<S: AppState> Application for StateMachine<S> {
    ghost meaning = { λ kind. S.meaning };

    ghost machine = { λ m. m };

    fn info(&self) -> Info {
        Info {
            height: self.height,
            hash: self.hash,
        }
    }

    fn init_chain(&mut self) -> Result<(), AllocError> {
        Ok(())
    }

    fn check_tx(&self, tx: &Tx, _kind: CheckKind) -> u32 {
        self.committed.check(tx.as_bytes())
    }

    fn begin_block(&mut self, _height: Height) -> Result<(), AllocError> {
        self.working = Some(self.committed.copy()?);
        Ok(())
    }

    fn deliver_tx(&mut self, tx: &Tx) -> Result<u32, AllocError> {
        match &mut self.working {
            Some(state) => state.deliver(self.alloc, tx.as_bytes()),
            None => unreachable!(),
        }
    }

    fn end_block(&mut self) -> Result<(), AllocError> {
        Ok(())
    }

    fn commit(&mut self) -> [u8; 32] {
        let state = self.working.take().unwrap();
        self.committed = state;
        self.height += 1;
        self.hash = self.committed.hash();
        self.hash
    }

    fn query(&self, key: &[u8], height: u32) -> Result<Option<Vec<u8>>, QueryFault> {
        if height != 0 && height != self.height {
            return Err(QueryFault::NotHeld);
        }
        match self.committed.held(self.alloc, key) {
            Ok(value) => Ok(value),
            Err(AllocError) => Err(QueryFault::NoMemory),
        }
    }
}
