//! What the headline says of the register.
ghost use Rattle.std.specs.Prelude.{◌≡◌};
ghost use Rattle.notary_app.specs.Registers.{OneRegister, register};

use crate::Notary;
use abci::Application;

/// Every run of a cluster of registers is a run of one register, if nothing that was accepted was forged. The meaning of the
/// application, of which `World::run` says so, is the register, whatever the kind.
pub fn one_register()
    ensures runs { OneRegister }
    ensures means { ⟦<Notary as Application>⟧.meaning ≡ (λ kind. register) }
{}
