//! Why a test can't compare.
use adversary_net::WorldFault;
use history_bytes::HistoryFault;
use key_ring::SignFault;
use ledger_model::{ApplyFault, ConfigFault};
use scenario_texts::TextFault;
use std::alloc::{AllocError, AllocFailed};

/// Why a test can't compare.
#[derive(Clone, Copy, Debug)]
pub(crate) enum Fault {
    NoMemory,
    /// The text is no scenario.
    Text(TextFault),
    /// No cluster has this size.
    Config(ConfigFault),
    World(WorldFault),
    /// The replica lies, or is not in the cluster.
    NoHistory,
    /// A command printed other lines than expected.
    OtherLines,
    /// A follower refused an entry that it should have taken.
    EntryRefused,
    /// The replica sent no such frame.
    NoFrame,
    /// The key pair signed nothing.
    Unsigned(SignFault),
    /// The replica took no event.
    Event(ApplyFault),
    /// The bytes are no key.
    NoKey,
    /// The bytes are no histories.
    History(HistoryFault),
    /// Histories were written as other bytes than those that they were read from.
    OtherBytes,
}

impl From<AllocError> for Fault {
    fn from(_error: AllocError) -> Fault {
        Fault::NoMemory
    }
}

impl<T: Drop> From<AllocFailed<T>> for Fault {
    fn from(_error: AllocFailed<T>) -> Fault {
        Fault::NoMemory
    }
}

impl From<TextFault> for Fault {
    fn from(fault: TextFault) -> Fault {
        Fault::Text(fault)
    }
}

impl From<ConfigFault> for Fault {
    fn from(fault: ConfigFault) -> Fault {
        Fault::Config(fault)
    }
}

impl From<WorldFault> for Fault {
    fn from(fault: WorldFault) -> Fault {
        Fault::World(fault)
    }
}

impl From<SignFault> for Fault {
    fn from(fault: SignFault) -> Fault {
        Fault::Unsigned(fault)
    }
}

impl From<ApplyFault> for Fault {
    fn from(fault: ApplyFault) -> Fault {
        Fault::Event(fault)
    }
}

impl From<HistoryFault> for Fault {
    fn from(fault: HistoryFault) -> Fault {
        Fault::History(fault)
    }
}
