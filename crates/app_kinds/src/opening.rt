//! The three applications as those of a program.
use crate::AnyKind;
use app_states::Opening;
use ledger_model::{AppKind, AppKinds};
use std::alloc::Global;

impl Opening for AnyKind {
    ghost use Rattle.app_kinds.specs.Words.{abft_words};

    ghost words = { abft_words };

    fn name() -> &'static str {
        "abft"
    }

    fn first_tx() -> &'static str {
        "a=1"
    }

    fn kinds() -> AppKinds {
        AppKinds::Three
    }

    fn opening(alloc: Global, kind: AppKind) -> Self {
        AnyKind::new(alloc, kind)
    }
}
