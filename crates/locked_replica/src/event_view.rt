//! A borrowed view of an event of a history.
use ledger_model::Height;

/// An event of a history, with its bytes borrowed.
#[derive(Clone, Copy, Drop)]
pub enum EventView<'a> {
    /// A client submitted a transaction.
    Submit(&'a [u8]),
    /// The replica was to open the height, with a batch from its pool.
    Propose(Height),
    /// Bytes arrived from the network.
    Deliver(&'a [u8]),
    /// The round ended, and the next began.
    RoundEnd,
    /// The application was to run the next decided block.
    Execute,
    /// A client queried the application for a key, at a height; 0 means the latest.
    Query(&'a [u8], Height),
    /// The replica was to give up the heights below this one.
    Retire(Height),
}
