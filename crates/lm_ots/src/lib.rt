//! One-time signatures with SHA-256 (LM-OTS, RFC 8554, section 4), at widths 4 and 8, n = 32.
//!
//! A leaf's key pair comes from a seed. [`public_hash`] returns its public value, and [`public_hashes`] those of eight
//! leaves. [`sign`] signs a message with the leaf, [`candidate`] returns the public value that a signature leads to,
//! and [`signed_steps`] counts the steps that a signature takes.
#![tactic(auto)]

mod block;
mod digits;
mod ends;
mod hashing;
mod identifier;
pub mod laws;
mod leaf_chains;
mod leaf_row;
mod ots;
mod params;
mod seed;
mod waiting;

pub use hashing::{hasher_at, read_u32};
pub use identifier::Identifier;
pub use leaf_row::public_hashes;
pub use ots::{append_signature, candidate, public_hash, sign, signed_steps};
pub use params::{Params, TreeHeight, Width};
pub use seed::Seed;
