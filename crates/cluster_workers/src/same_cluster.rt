//! Whether a replica's configuration and keys are those of a cluster.
ghost use Rattle.std.specs.Prelude.{◌≡◌, ◌↔◌, true};

use key_ring::KeyRing;
use ledger_model::Config;

/// Whether two configurations are the same.
pub(crate) fn are_same(one: &Config, other: &Config) -> bool
    ensures { (result ≡ true) ↔ (one.now ≡ other.now) }
{
    one.replicas == other.replicas
        && one.faults == other.faults
        && one.kind == other.kind
        && one.frames == other.frames
}

/// Whether two rings have the same keys.
pub(crate) fn have_same_keys(one: &KeyRing, other: &KeyRing) -> bool
    ensures { (result ≡ true) ↔ (one.now ≡ other.now) }
{
    one == other
}
