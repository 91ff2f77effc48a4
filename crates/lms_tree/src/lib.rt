//! Signatures of many messages under one public key (LMS with SHA-256, RFC 8554, section 5):
//! a Merkle tree of height 5 or 10 over one-time keys.
//!
//! [`Tree::build`] computes the tree of a seed, [`Tree::sign`] signs with one of its leaves, and
//! [`verify`] checks a signature under a [`PublicKey`].
#![tactic(auto)]

mod key;
pub mod laws;
mod nodes;
mod tree;
mod verification;

pub use key::{KeyFault, PublicKey};
pub use tree::Tree;
pub use verification::verify;
