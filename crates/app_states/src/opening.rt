//! Applications in their opening state, one for each replica, and what a program says of its application.
ghost use Rattle.std.specs.Prelude.{◌≡◌, [], vec_len, All, IfOk};
ghost use Rattle.ledger_model.specs.Applications.{run};

use crate::app_state::AppState;
use crate::state_machine::StateMachine;
use abci::Application;
use ledger_model::{AppKind, AppKinds};
use std::alloc::{AllocError, Global};

/// An application that a program runs: it can be made in its opening state, and the program has words for it.
pub trait Opening: Application {
    ghost use Rattle.std.specs.Prelude.{◌≡◌, []};
    ghost use Rattle.ledger_model.specs.Applications.{run};
    ghost use Rattle.app_states.specs.ProgramWords.{ProgramWords};

    // The program's words.
    ghost words: { ProgramWords };

    /// The program's name.
    fn name() -> &'static str
        ensures { result.now ≡ words.name };

    /// The printed form of a transaction: the default of the options that are transactions. CheckTx should return 0 for it in the
    /// opening state, of the kind that the program has by default. No clause says so.
    fn first_tx() -> &'static str
        ensures { result.now ≡ words.first_tx };

    /// Which kinds of applications the program has.
    fn kinds() -> AppKinds
        ensures { result ≡ words.kinds };

    /// The application before the first block, of a cluster of this kind.
    fn opening(alloc: Global, kind: AppKind) -> Self
        ensures { Self.machine result ≡ run Self.meaning kind [] };
}

/// The state of an application of one's own, with the program's words for it.
pub trait OwnApp: AppState {
    ghost use Rattle.std.specs.Prelude.{◌≡◌, ℕ, List};

    // The program's name.
    ghost program: { List ℕ };

    // The transaction by default, in its printed form.
    ghost default_tx: { List ℕ };

    /// The program's name.
    fn program() -> &'static str
        ensures { result.now ≡ program };

    /// The printed form of a transaction, for which CheckTx should return 0 in the opening state. No clause says so.
    fn default_tx() -> &'static str
        ensures { result.now ≡ default_tx };
}

impl<S: OwnApp> Opening for StateMachine<S> {
    ghost use Rattle.ledger_model.specs.declared.config.AppKinds.TheVariants.{OwnAlone};

    ghost words = { record { name = S.program; first_tx = S.default_tx; kinds = OwnAlone } };

    fn name() -> &'static str {
        S::program()
    }

    fn first_tx() -> &'static str {
        S::default_tx()
    }

    fn kinds() -> AppKinds {
        AppKinds::OwnAlone
    }

    fn opening(alloc: Global, kind: AppKind) -> Self {
        StateMachine::new(alloc, kind)
    }
}

/// `count` applications of a kind, each in its opening state. The only error is allocation failure.
pub fn new_apps<A: Opening>(
    alloc: Global,
    kind: AppKind,
    count: usize,
) -> Result<Vec<A>, AllocError>
    ensures count { IfOk result (λ apps. vec_len apps ≡ count) }
    ensures opening { IfOk result (λ apps. All (λ app. A.machine app ≡ run A.meaning kind []) apps.items) }
{
    let mut apps = Vec::with_capacity(alloc, count)?;
    for _ in 0..count {
        apps.push(A::opening(alloc, kind))?;
    }
    Ok(apps)
}
