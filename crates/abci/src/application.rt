//! Applications: the calls of ABCI, each with its meaning.
use crate::{CheckKind, Info, QueryFault};
use ledger_model::{Height, Tx};
use std::alloc::AllocError;

/// An application behind ABCI's calls.
///
/// An application brings its meaning: what it answers after the transactions that it accepted. It is a state machine: its
/// kind, its committed state and height and, within a block, its working state. The contract of a call says what that
/// machine returns and how it changes. A state is described by the accepted transactions that lead to it.
pub trait Application: Drop {
    ghost use Rattle.std.specs.Prelude.{◌≡◌, ◌≢◌, ◌+◌, ◌↔◌, IsSome, IfOk, OnOk, OnErr, IsErrOf, option_map};
    ghost use Rattle.ledger_model.specs.Applications.{Machine};
    ghost use Rattle.ledger_model.specs.Meanings.{Meanings};
    ghost use Rattle.abci.specs.Meaning.{ShowsOf, ChecksTo, StartsBlock, KeepsCommitted, DeliversTo, CommitsTo, AnswersTo, LosesWork};

    // What an application of each kind means. An application that is not chosen among kinds means the same for each.
    ghost meaning: { Meanings };

    // The state machine that it is.
    ghost machine: { Self → Machine };

    /// ABCI's Info: the committed height, and the hash of the committed state.
    fn info(&self) -> Info
        ensures { ShowsOf (machine self.now) result };

    /// ABCI's InitChain, before the first block. The machine doesn't change.
    fn init_chain(&mut self) -> Result<(), AllocError>
        requires { (machine self.old).height ≡ 0 }
        ensures { machine self.new ≡ machine self.old };

    /// ABCI's CheckTx: the code of a transaction in the committed state, 0 if the pool may keep it.
    fn check_tx(&self, tx: &Tx, kind: CheckKind) -> u32
        ensures { ChecksTo meaning (machine self.now) tx.now result };

    /// ABCI's BeginBlock: the working state becomes a copy of the committed one; an unfinished working state is
    /// dropped. After allocation failure the committed state and the height are unchanged.
    fn begin_block(&mut self, height: Height) -> Result<(), AllocError>
        requires { height ≡ (machine self.old).height + 1 }
        ensures ok { OnOk result (StartsBlock (machine self.old) (machine self.new)) }
        ensures err { OnErr result (LosesWork (machine self.old) (machine self.new)) };

    /// ABCI's DeliverTx: the code of a transaction in the working state, which a transaction of code 0 changes. After
    /// allocation failure the committed state and the height are unchanged.
    fn deliver_tx(&mut self, tx: &Tx) -> Result<u32, AllocError>
        requires { IsSome (machine self.old).working }
        ensures goes_on { OnOk result (KeepsCommitted (machine self.old) (machine self.new)) }
        ensures ok { IfOk result (λ code. DeliversTo meaning (machine self.old) tx.now code (machine self.new)) }
        ensures err { OnErr result (LosesWork (machine self.old) (machine self.new)) };

    /// ABCI's EndBlock. After allocation failure the committed state and the height are unchanged.
    fn end_block(&mut self) -> Result<(), AllocError>
        requires { IsSome (machine self.old).working }
        ensures ok { OnOk result (machine self.new ≡ machine self.old) }
        ensures err { OnErr result (LosesWork (machine self.old) (machine self.new)) };

    /// ABCI's Commit: commits the working state as the next height. Returns the hash of its encoding.
    fn commit(&mut self) -> [u8; 32]
        requires { IsSome (machine self.old).working }
        ensures { CommitsTo (machine self.old) result (machine self.new) };

    /// ABCI's Query: the value under a key in the committed state.
    ///
    /// `NotHeld` comes exactly if the height is neither 0 nor the committed one.
    fn query(&self, key: &[u8], height: u32) -> Result<Option<Vec<u8>>, QueryFault>
        ensures answer { IfOk result (λ value. AnswersTo meaning (machine self.now) key.now (option_map (λ v. v.items) value)) }
        ensures not_held { IsErrOf result QueryFault.NotHeld
            ↔ (height ≢ 0) × (height ≢ (machine self.now).height) };
}
