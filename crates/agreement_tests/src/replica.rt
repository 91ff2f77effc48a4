//! One replica of four at height 1, and its open round.

ghost use Rattle.std.specs.Prelude.{◌≡◌};
ghost use Rattle.ledger_model.specs.declared.version.Version.TheVariants.{One};

use super::frames::{parsed, small_value};
use instance::Instance;
use key_ring::KeyRing;
use ledger_model::{AppKind, Config, Height, Ignored, ReplicaId};
use std::alloc::Global;

/// A replica of four at height 1, of which one may lie, and its open round.
#[derive(Drop)]
pub(crate) struct OpenHeight {
    pub(crate) alloc: Global,
    pub(crate) config: Config,
    pub(crate) number: u8,
    pub(crate) instance: Instance,
    pub(crate) clock: u32,
    ghost own: { instance.id ≡ number },
    ghost same: { instance.config ≡ config },
    ghost four: { instance.config.replicas ≡ 4 },
    ghost frames: { instance.config.frames ≡ One },
}

impl OpenHeight {
    /// A replica whose own value is [a=1], before the first round.
    pub(crate) fn open(alloc: Global, number: u8) -> Option<Self> {
        OpenHeight::open_with(alloc, number, b"a=1")
    }

    /// A replica whose own value has this transaction, before the first round.
    pub(crate) fn open_with(alloc: Global, number: u8, tx: &[u8]) -> Option<Self> {
        let config = Config::new(4, 1, AppKind::KvStore).ok()?;
        if number >= 4 {
            return None;
        }
        let own = small_value(alloc, tx)?;
        let id = ReplicaId::new(number);
        let instance = Instance::open(alloc, &config, id, Height::new(1), &own).ok()?;
        Some(OpenHeight {
            alloc,
            config,
            number,
            instance,
            clock: 0,
        })
    }

    /// Why the frame with these bytes is ignored, if it is.
    pub(crate) fn ignores(&mut self, ring: &KeyRing, bytes: &[u8]) -> Option<Option<Ignored>> {
        let frame = parsed(self.alloc, bytes)?;
        if self.clock > 1000
            || frame.statement().signer().number() >= 4
            || frame.statement().height() != self.instance.height()
        {
            return None;
        }
        match self.instance.read(self.alloc, ring, frame, self.clock) {
            Ok(answer) => Some(answer.err()),
            Err(_) => None,
        }
    }
}
