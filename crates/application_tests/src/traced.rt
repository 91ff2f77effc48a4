//! An application that records its calls, and finds no memory for its answers to queries.
ghost use Rattle.std.specs.Prelude.{◌≡◌};

use abci::{Application, CheckKind, Info, QueryFault};
use ledger_model::{Height, Tx};
use std::alloc::AllocError;
use std::cell::Cell;

/// A call that an engine made. A transaction is recorded by its first byte.
#[derive(Clone, Copy, PartialEq, Eq)]
pub(crate) enum Call {
    InitChain,
    CheckNew(u8),
    Recheck(u8),
    BeginBlock(u32),
    DeliverTx(u8),
    EndBlock,
    Commit,
}

/// The most calls that are recorded.
pub(crate) const MAX_CALLS: usize = 9;

/// An application, and the calls that were made on it, except Info and Query.
#[derive(Drop)]
pub(crate) struct Traced<X: Application> {
    app: X,
    calls: Cell<[Option<Call>; MAX_CALLS]>,
}

impl<X: Application> Traced<X> {
    /// The application, before any call.
    pub(crate) fn new(app: X) -> Self
        ensures { result.app ≡ app }
    {
        Traced {
            app,
            calls: Cell::new([None; MAX_CALLS]),
        }
    }

    /// The recorded calls, in order, followed by `None`.
    pub(crate) fn calls(&self) -> [Option<Call>; MAX_CALLS] {
        self.calls.get()
    }

    /// Records a call after the earlier ones.
    fn note(&self, call: Call) {
        let mut calls = self.calls.get();
        for index in 0..MAX_CALLS {
            if calls[index].is_none() {
                calls[index] = Some(call);
                break;
            }
        }
        self.calls.set(calls);
    }
}

impl<X: Application> Application for Traced<X> {
    ghost meaning = { X.meaning };

    ghost machine = { λ t. X.machine t.app };

    fn info(&self) -> Info {
        self.app.info()
    }

    fn init_chain(&mut self) -> Result<(), AllocError> {
        self.note(Call::InitChain);
        self.app.init_chain()
    }

    fn check_tx(&self, tx: &Tx, kind: CheckKind) -> u32 {
        let first = tx.as_bytes()[0];
        self.note(match kind {
            CheckKind::New => Call::CheckNew(first),
            CheckKind::Recheck => Call::Recheck(first),
        });
        self.app.check_tx(tx, kind)
    }

    fn begin_block(&mut self, height: Height) -> Result<(), AllocError> {
        self.note(Call::BeginBlock(height.number()));
        self.app.begin_block(height)
    }

    fn deliver_tx(&mut self, tx: &Tx) -> Result<u32, AllocError> {
        self.note(Call::DeliverTx(tx.as_bytes()[0]));
        self.app.deliver_tx(tx)
    }

    fn end_block(&mut self) -> Result<(), AllocError> {
        self.note(Call::EndBlock);
        self.app.end_block()
    }

    fn commit(&mut self) -> [u8; 32] {
        self.note(Call::Commit);
        self.app.commit()
    }

    fn query(&self, key: &[u8], height: u32) -> Result<Option<Vec<u8>>, QueryFault> {
        match self.app.query(key, height) {
            Ok(_) => Err(QueryFault::NoMemory),
            Err(fault) => Err(fault),
        }
    }
}
