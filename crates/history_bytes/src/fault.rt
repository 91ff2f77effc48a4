//! Why bytes are no histories.
use thiserror::Error;

/// Why histories were not read.
#[derive(Clone, Copy, Debug, PartialEq, Eq, Error)]
pub enum HistoryFault {
    #[error("the bytes are not histories")]
    BadHistory,
    #[error("out of memory")]
    NoMemory,
}
