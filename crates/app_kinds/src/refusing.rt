//! A wrapper in which a chosen delivery of a transaction fails with allocation failure.
use abci::{Application, CheckKind, Info, QueryFault};
use ledger_model::{Height, Tx};
use std::alloc::AllocError;
use std::marker::Model;

/// An application in which one chosen call of `deliver_tx` fails with allocation failure.
#[derive(Drop)]
pub struct Refusing<X: Application> {
    app: X,
    /// Which of the next calls fails: 1 is the next one, 0 none.
    refused: u64,
}

impl<X: Application> Model for Refusing<X> {
    ghost use Rattle.app_kinds.specs.Wrapped.{RefusingApp};

    ghost Value = { RefusingApp X };

    ghost view = { λ r. record { app = r.app; refused = r.refused } };
}

impl<X: Application> Refusing<X> {
    ghost use Rattle.std.specs.Prelude.{◌≡◌};

    /// The application, of which call number `refused` of `deliver_tx`, counted from 1, will fail. 0 means none.
    pub fn new(app: X, refused: u64) -> Self
        ensures app { result.app ≡ app }
        ensures refused { result.refused ≡ refused }
    {
        Refusing { app, refused }
    }
}

impl<X: Application> Application for Refusing<X> {
    ghost use Rattle.std.specs.Prelude.{◌≡◌, ◌+◌, ◌-◌, IsSome, IsErr, IfOk, OnOk, OnErr};
    ghost use Rattle.abci.specs.Meaning.{StartsBlock, KeepsCommitted, DeliversTo, CommitsTo, LosesWork};

    ghost meaning = { X.meaning };

    ghost machine = { λ r. X.machine r.app };

    fn info(&self) -> Info {
        self.app.info()
    }

    fn init_chain(&mut self) -> Result<(), AllocError>
        requires { (X.machine self.old.app).height ≡ 0 }
        ensures machine { X.machine self.new.app ≡ X.machine self.old.app }
        ensures refused { self.new.refused ≡ self.old.refused }
    {
        self.app.init_chain()
    }

    fn check_tx(&self, tx: &Tx, kind: CheckKind) -> u32 {
        self.app.check_tx(tx, kind)
    }

    fn begin_block(&mut self, height: Height) -> Result<(), AllocError>
        requires { height ≡ (X.machine self.old.app).height + 1 }
        ensures ok { OnOk result (StartsBlock (X.machine self.old.app) (X.machine self.new.app)) }
        ensures err { OnErr result (LosesWork (X.machine self.old.app) (X.machine self.new.app)) }
        ensures refused { self.new.refused ≡ self.old.refused }
    {
        self.app.begin_block(height)
    }

    /// The chosen call doesn't reach the application.
    fn deliver_tx(&mut self, tx: &Tx) -> Result<u32, AllocError>
        requires { IsSome (X.machine self.old.app).working }
        ensures goes_on { OnOk result (KeepsCommitted (X.machine self.old.app) (X.machine self.new.app)) }
        ensures ok { IfOk result (λ code. DeliversTo X.meaning (X.machine self.old.app) tx.now code (X.machine self.new.app)) }
        ensures err { OnErr result (LosesWork (X.machine self.old.app) (X.machine self.new.app)) }
        ensures counts { self.new.refused ≡ self.old.refused - 1 }
        ensures refuses { self.old.refused ≡ 1 → IsErr result }
        ensures untouched { self.old.refused ≡ 1 → self.new.app ≡ self.old.app }
    {
        let refused = self.refused == 1;
        self.refused = self.refused.saturating_sub(1);
        if refused {
            return Err(AllocError);
        }
        self.app.deliver_tx(tx)
    }

    fn end_block(&mut self) -> Result<(), AllocError>
        requires { IsSome (X.machine self.old.app).working }
        ensures ok { OnOk result (X.machine self.new.app ≡ X.machine self.old.app) }
        ensures err { OnErr result (LosesWork (X.machine self.old.app) (X.machine self.new.app)) }
        ensures refused { self.new.refused ≡ self.old.refused }
    {
        self.app.end_block()
    }

    fn commit(&mut self) -> [u8; 32]
        requires { IsSome (X.machine self.old.app).working }
        ensures commits { CommitsTo (X.machine self.old.app) result (X.machine self.new.app) }
        ensures refused { self.new.refused ≡ self.old.refused }
    {
        self.app.commit()
    }

    fn query(&self, key: &[u8], height: u32) -> Result<Option<Vec<u8>>, QueryFault> {
        self.app.query(key, height)
    }
}
