//! HTTP/1.x messages: the head of a request to the question that it asks, by the paths and parameters of CometBFT's URI calls, and an answer
//! to the bytes of its reply: JSON in the shapes of those calls, Prometheus' text, or a page.
//!
//! [`parse`] takes the bytes up to the blank line and answers a [`Request`], or the [`RequestFault`] with its status. [`put_reply`] appends
//! the whole reply for an [`Answer`]. `docs/HTTP.md` has an example of each path.
#![tactic(auto)]

mod answer;
mod asking;
mod endpoint;
mod errors;
mod fault;
mod frame_counts;
mod metrics;
mod page;
mod parameters;
mod parsing;
mod replying;
mod request;
mod results;
mod texts;
mod values;

pub use answer::{Answer, Commitment, Receipt, ServiceFault, Submission};
pub use fault::{Parameter, RequestFault};
pub use frame_counts::FrameCounts;
pub use metrics::ReplicaMetrics;
pub use parsing::{MAX_FIELDS, MAX_HEAD_LEN, parse};
pub use replying::{out_of_memory_reply, put_reply};
pub use request::{Question, Request};
