//! A wrapper that counts the transactions delivered to an application.
use abci::{Application, CheckKind, Info, QueryFault};
use ledger_model::{Height, Tx};
use std::alloc::AllocError;
use std::marker::Model;

/// An application, with the number of transactions that were delivered to it.
#[derive(Drop)]
pub struct Counted<X: Application> {
    app: X,
    delivered: u64,
}

impl<X: Application> Model for Counted<X> {
    ghost use Rattle.app_kinds.specs.Wrapped.{CountedApp};

    ghost Value = { CountedApp X };

    ghost view = { λ c. record { app = c.app; delivered = c.delivered } };
}

impl<X: Application> Counted<X> {
    ghost use Rattle.std.specs.Prelude.{◌≡◌};

    /// The application, with nothing delivered to it yet.
    pub fn new(app: X) -> Self
        ensures app { result.app ≡ app }
        ensures none { result.delivered ≡ 0 }
    {
        Counted { app, delivered: 0 }
    }

    /// The number of calls of `deliver_tx`, whatever they returned; at most `u64::MAX`.
    pub fn delivered(&self) -> u64
        ensures { result ≡ self.now.delivered }
    {
        self.delivered
    }
}

impl<X: Application> Application for Counted<X> {
    ghost use Rattle.std.specs.Prelude.{◌≡◌, ◌+◌, ◌-◌, ◌^◌, min, IsSome, IfOk, OnOk, OnErr};
    ghost use Rattle.abci.specs.Meaning.{StartsBlock, KeepsCommitted, DeliversTo, CommitsTo, LosesWork};

    ghost meaning = { X.meaning };

    ghost machine = { λ c. X.machine c.app };

    fn info(&self) -> Info {
        self.app.info()
    }

    fn init_chain(&mut self) -> Result<(), AllocError>
        requires { (X.machine self.old.app).height ≡ 0 }
        ensures count { self.new.delivered ≡ self.old.delivered }
        ensures machine { X.machine self.new.app ≡ X.machine self.old.app }
    {
        self.app.init_chain()
    }

    fn check_tx(&self, tx: &Tx, kind: CheckKind) -> u32 {
        self.app.check_tx(tx, kind)
    }

    fn begin_block(&mut self, height: Height) -> Result<(), AllocError>
        requires { height ≡ (X.machine self.old.app).height + 1 }
        ensures count { self.new.delivered ≡ self.old.delivered }
        ensures ok { OnOk result (StartsBlock (X.machine self.old.app) (X.machine self.new.app)) }
        ensures err { OnErr result (LosesWork (X.machine self.old.app) (X.machine self.new.app)) }
    {
        self.app.begin_block(height)
    }

    /// Counts the call, whatever it returns.
    fn deliver_tx(&mut self, tx: &Tx) -> Result<u32, AllocError>
        requires { IsSome (X.machine self.old.app).working }
        ensures count { self.new.delivered ≡ min (self.old.delivered + 1) (2 ^ 64 - 1) }
        ensures goes_on { OnOk result (KeepsCommitted (X.machine self.old.app) (X.machine self.new.app)) }
        ensures ok { IfOk result (λ code. DeliversTo X.meaning (X.machine self.old.app) tx.now code (X.machine self.new.app)) }
        ensures err { OnErr result (LosesWork (X.machine self.old.app) (X.machine self.new.app)) }
    {
        self.delivered = self.delivered.saturating_add(1);
        self.app.deliver_tx(tx)
    }

    fn end_block(&mut self) -> Result<(), AllocError>
        requires { IsSome (X.machine self.old.app).working }
        ensures count { self.new.delivered ≡ self.old.delivered }
        ensures ok { OnOk result (X.machine self.new.app ≡ X.machine self.old.app) }
        ensures err { OnErr result (LosesWork (X.machine self.old.app) (X.machine self.new.app)) }
    {
        self.app.end_block()
    }

    fn commit(&mut self) -> [u8; 32]
        requires { IsSome (X.machine self.old.app).working }
        ensures count { self.new.delivered ≡ self.old.delivered }
        ensures commits { CommitsTo (X.machine self.old.app) result (X.machine self.new.app) }
    {
        self.app.commit()
    }

    fn query(&self, key: &[u8], height: u32) -> Result<Option<Vec<u8>>, QueryFault> {
        self.app.query(key, height)
    }
}
