//! An application whose kind is chosen at run time.
use crate::{Counter, KvStore, Purse};
use abci::{Application, CheckKind, Info, QueryFault};
use ledger_model::{AppKind, Height, Tx};
use std::alloc::{AllocError, Global};
use std::marker::Model;

/// The application that was chosen.
#[derive(Drop)]
enum Chosen {
    KvStore(KvStore),
    Counter(Counter),
    Purse(Purse),
}

/// One of the three applications, for a program whose user chooses the kind. Forwards each call to the chosen one.
#[derive(Drop)]
pub struct AnyKind {
    chosen: Chosen,
}

impl Model for AnyKind {
    ghost use Rattle.ledger_model.specs.Applications.{Machine};
    ghost use Rattle.app_kinds.specs.Chosen.{IsOfItsKind, machine_of};

    ghost Value = { Machine };

    ghost view = { λ a. machine_of a.chosen };

    ghost invariant = { λ a. IsOfItsKind a.chosen };
}

impl AnyKind {
    ghost use Rattle.std.specs.Prelude.{◌≡◌, []};
    ghost use Rattle.ledger_model.specs.Applications.{run};
    ghost use Rattle.ledger_model.specs.Kinds.{meaning_of};

    /// The application of this kind before the first block. That of `AppKind::Own`, which no program of the three has, is a
    /// store.
    #[tactic(auto, unfolding(ledger_model::specs::Applications::run))]
    pub fn new(alloc: Global, kind: AppKind) -> Self
        ensures { result ≡ run meaning_of kind [] }
    {
        let chosen = match kind {
            AppKind::Own => Chosen::KvStore(KvStore::new(alloc, AppKind::Own)),
            AppKind::KvStore => Chosen::KvStore(KvStore::new(alloc, AppKind::KvStore)),
            AppKind::Counter => Chosen::Counter(Counter::new(alloc, AppKind::Counter)),
            AppKind::Purse => Chosen::Purse(Purse::new(alloc, AppKind::Purse)),
        };
        AnyKind { chosen }
    }
}

impl Application for AnyKind {
    ghost use Rattle.ledger_model.specs.Kinds.{meaning_of};

    ghost meaning = { meaning_of };

    ghost machine = { λ m. m };

    fn info(&self) -> Info {
        match &self.chosen {
            Chosen::KvStore(app) => app.info(),
            Chosen::Counter(app) => app.info(),
            Chosen::Purse(app) => app.info(),
        }
    }

    fn init_chain(&mut self) -> Result<(), AllocError> {
        match &mut self.chosen {
            Chosen::KvStore(app) => app.init_chain(),
            Chosen::Counter(app) => app.init_chain(),
            Chosen::Purse(app) => app.init_chain(),
        }
    }

    fn check_tx(&self, tx: &Tx, kind: CheckKind) -> u32 {
        match &self.chosen {
            Chosen::KvStore(app) => app.check_tx(tx, kind),
            Chosen::Counter(app) => app.check_tx(tx, kind),
            Chosen::Purse(app) => app.check_tx(tx, kind),
        }
    }

    fn begin_block(&mut self, height: Height) -> Result<(), AllocError> {
        match &mut self.chosen {
            Chosen::KvStore(app) => app.begin_block(height),
            Chosen::Counter(app) => app.begin_block(height),
            Chosen::Purse(app) => app.begin_block(height),
        }
    }

    fn deliver_tx(&mut self, tx: &Tx) -> Result<u32, AllocError> {
        match &mut self.chosen {
            Chosen::KvStore(app) => app.deliver_tx(tx),
            Chosen::Counter(app) => app.deliver_tx(tx),
            Chosen::Purse(app) => app.deliver_tx(tx),
        }
    }

    fn end_block(&mut self) -> Result<(), AllocError> {
        match &mut self.chosen {
            Chosen::KvStore(app) => app.end_block(),
            Chosen::Counter(app) => app.end_block(),
            Chosen::Purse(app) => app.end_block(),
        }
    }

    fn commit(&mut self) -> [u8; 32] {
        match &mut self.chosen {
            Chosen::KvStore(app) => app.commit(),
            Chosen::Counter(app) => app.commit(),
            Chosen::Purse(app) => app.commit(),
        }
    }

    fn query(&self, key: &[u8], height: u32) -> Result<Option<Vec<u8>>, QueryFault> {
        match &self.chosen {
            Chosen::KvStore(app) => app.query(key, height),
            Chosen::Counter(app) => app.query(key, height),
            Chosen::Purse(app) => app.query(key, height),
        }
    }
}
