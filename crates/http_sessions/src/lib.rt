//! HTTP over any reader and writer, for replicas that answer: one request a connection, and the bytes of its reply.
//!
//! A server implements [`HttpTargets`] for its replicas, and calls [`serve_request`] for each connection. It reads the head of a request,
//! asks the replica that the request names, and writes the reply. [`answer`] is the part between: what was asked to the bytes of the reply.
//! `docs/HTTP.md` has an example of each path.
#![tactic(auto)]

mod answering;
mod answers;
mod choosing;
mod hearing;
mod request_end;
mod serving;
mod targets;

pub use answering::answer;
pub use request_end::{ConnectionFault, RequestEnd};
pub use serving::serve_request;
pub use targets::{AppInfo, Delivery, HttpTargets, PoolSize, Progress};
