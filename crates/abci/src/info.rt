//! The arguments and results of an application's calls, apart from transactions.
use thiserror::Error;

/// What an application returns about itself (ABCI's `ResponseInfo`).
#[derive(Clone, Copy, Debug, PartialEq, Eq)]
pub struct Info {
    /// The number of blocks that it committed (`last_block_height`).
    pub height: u32,
    /// The SHA-256 of the committed state's encoding (`last_block_app_hash`).
    pub hash: [u8; 32],
}

/// Why a transaction is checked (ABCI's `CheckTxType`).
#[derive(Clone, Copy, Debug, PartialEq, Eq)]
pub enum CheckKind {
    /// The transaction is new.
    New,
    /// The transaction is in the pool, and a block was committed since.
    Recheck,
}

/// Why a query gets no answer.
#[derive(Clone, Copy, Debug, PartialEq, Eq, Error)]
pub enum QueryFault {
    /// The height is neither 0 nor that of the last block.
    #[error("only the last height can be asked about")]
    NotHeld,
    /// Memory ran out.
    #[error("no memory for the answer")]
    NoMemory,
}
