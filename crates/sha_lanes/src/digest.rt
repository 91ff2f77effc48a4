//! The digests of eight messages of 55 bytes, each of which is one block with its padding.
ghost use Rattle.std.specs.Prelude.{◌≡◌, ℕ, ◌+◌, ◌*◌, ◌<◌, ◌≤◌, List, [], length, slice_index, slice_index_or};
ghost use Rattle.sha2.specs.Sha256.{digest_bytes, padded_message, sha256, word_at};
ghost use Rattle.sha_lanes.specs.Lanes.{lane, lane_at};
ghost use Rattle.sha_lanes.specs.Turns.{AreBytes};

use crate::rounds::{compress, initial_state};
use std::simd::u32x8;

/// The padding of a message of 55 bytes in its block (FIPS 180-4, section 5.1.1): a 1 bit, and the length in bits, 440, in 8 bytes.
const PADDING: [u8; 9] = [0x80, 0, 0, 0, 0, 0, 0, 0x01, 0xb8];

/// The SHA-256 digests (FIPS 180-4) of eight messages of 55 bytes: item `j` of the result is the digest of message `j`.
///
/// Allocates nothing.
pub fn digest_each(messages: &[[u8; 55]; 8]) -> [[u8; 32]; 8]
    ensures { (j : ℕ) → j < 8
        → slice_index_or result j [] ≡ sha256 (slice_index_or messages.now j []) }
{
    let state = compress(initial_state(), message_words(messages));
    [
        digest_of(&state, 0),
        digest_of(&state, 1),
        digest_of(&state, 2),
        digest_of(&state, 3),
        digest_of(&state, 4),
        digest_of(&state, 5),
        digest_of(&state, 6),
        digest_of(&state, 7),
    ]
}

/// The words of the messages' blocks.
pub(crate) fn message_words(messages: &[[u8; 55]; 8]) -> [u32x8; 16]
    ensures whole { (j : ℕ) → j < 8 → length (slice_index_or messages.now j []) ≡ 55 }
    ensures bytes { (j : ℕ) → j < 8 → AreBytes (slice_index_or messages.now j []) }
    ensures read { (j k : ℕ) → j < 8 → k < 16
        → lane_at result k j ≡ word_at (padded_message (slice_index_or messages.now j [])) (4 * k) }
{
    let blocks = [
        padded(&messages[0]),
        padded(&messages[1]),
        padded(&messages[2]),
        padded(&messages[3]),
        padded(&messages[4]),
        padded(&messages[5]),
        padded(&messages[6]),
        padded(&messages[7]),
    ];
    let mut words = [u32x8::splat(0); 16];
    for k in 0..16 {
        words[k] = words_at(&blocks, 4 * k);
    }
    words
}

/// A message and its padding (FIPS 180-4, section 5.1.1): one block.
fn padded(message: &[u8; 55]) -> [u8; 64]
    ensures block { result ≡ padded_message message.now }
    ensures whole { length message.now ≡ 55 }
    ensures bytes { AreBytes message.now }
{
    let mut block = [0; 64];
    block[..55].copy_from_slice(message);
    block[55..].copy_from_slice(&PADDING);
    block
}

/// The words that start at byte `i` of each block.
fn words_at(blocks: &[[u8; 64]; 8], i: usize) -> u32x8
    requires { i + 4 ≤ 64 }
    ensures { (j : ℕ) → j < 8
        → slice_index result j ≡ word_at (slice_index_or blocks.now j []) i }
{
    u32x8::from_array([
        word_at(&blocks[0], i),
        word_at(&blocks[1], i),
        word_at(&blocks[2], i),
        word_at(&blocks[3], i),
        word_at(&blocks[4], i),
        word_at(&blocks[5], i),
        word_at(&blocks[6], i),
        word_at(&blocks[7], i),
    ])
}

/// The word that starts at byte `i` of a block.
fn word_at(block: &[u8; 64], i: usize) -> u32
    requires { i + 4 ≤ 64 }
    ensures { result ≡ word_at block.now i }
{
    u32::from_be_bytes([block[i], block[i + 1], block[i + 2], block[i + 3]])
}

/// The bytes of the hash value in lane `j`.
fn digest_of(state: &[u32x8; 8], j: usize) -> [u8; 32]
    requires { j < 8 }
    ensures { result ≡ digest_bytes (lane j state.now) 8 }
{
    let mut digest = [0; 32];
    for i in 0..8 {
        let word = state[i].to_array()[j];
        digest[4 * i..4 * i + 4].copy_from_slice(&word.to_be_bytes());
    }
    digest
}
