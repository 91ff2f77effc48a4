//! Eight messages that are hashed in turns. After each turn the digest replaces the last 32 bytes of the message.
//!
//! The words stay in vectors from turn to turn. The first five words of a block don't change, so their rounds are computed once.
ghost use Rattle.std.specs.Prelude.{◌≡◌, ℕ, ◌*◌, ◌/◌, ◌%◌, ◌^◌, ◌<◌, List, [], length, take, slice_index, slice_index_or};
ghost use Rattle.sha2.specs.Sha256.{add32, compress, initial_hash_256, padded_message, word_at};
ghost use Rattle.sha_lanes.specs.Lanes.{lane, lane_at};
ghost use Rattle.sha_lanes.specs.Turns.{AreBytes, after_turns, next_message};

use crate::digest::message_words;
use crate::lanes::{add, shift_left, shift_right, splat};
use crate::rounds::{compress_from, first_rounds, initial_state};
use std::simd::u32x8;

/// Hashes eight messages `count` times. Each time the digest (FIPS 180-4) replaces the last 32 bytes of the message,
/// and the byte before those is incremented, from 255 to 0.
///
/// Allocates nothing.
pub fn take_turns(messages: &mut [[u8; 55]; 8], count: u16)
    ensures turns { (j : ℕ) → j < 8
        → slice_index_or messages.new j [] ≡ after_turns count (slice_index_or messages.old j []) }
    ensures whole { (j : ℕ) → j < 8 → length (slice_index_or messages.old j []) ≡ 55 }
{
    let first = message_words(messages);
    let begun = first_rounds(&first, initial_state());
    let mut words = first;
    for turn in 0..count {
        let state = compress_from(initial_state(), begun, words);
        words = next_words(words, state);
    }
    for lane in 0..8 {
        put_front(&mut messages[lane], &block_of(&words, lane));
    }
}

/// Replaces a message by the first 55 bytes of a block.
fn put_front(message: &mut [u8; 55], block: &[u8; 64])
    ensures { message.new ≡ take 55 block.now }
{
    message.copy_from_slice(&block[..55]);
}

/// The words of the next messages, given the words of the current ones, whose hash values are `state`.
#[inline(always)]
fn next_words(words: [u32x8; 16], state: [u32x8; 8]) -> [u32x8; 16]
    ensures next { (j : ℕ) → j < 8 → (m : List ℕ) → length m ≡ 55 → AreBytes m
        → ((k : ℕ) → k < 16 → lane_at words k j ≡ word_at (padded_message m) (4 * k))
        → lane j state ≡ compress initial_hash_256 (padded_message m)
        → (k : ℕ) → k < 16 → lane_at result k j ≡ word_at (padded_message (next_message m)) (4 * k) }
    ensures front { (j k : ℕ) → j < 8 → k < 5 → lane_at result k j ≡ lane_at words k j }
{
    [
        words[0],
        words[1],
        words[2],
        words[3],
        words[4],
        counted_up(words[5], state[0]),
        joined(state[0], state[1]),
        joined(state[1], state[2]),
        joined(state[2], state[3]),
        joined(state[3], state[4]),
        joined(state[4], state[5]),
        joined(state[5], state[6]),
        joined(state[6], state[7]),
        ended(state[7]),
        words[14],
        words[15],
    ]
}

/// The last three bytes of a word, followed by the first byte of the next.
#[inline(always)]
fn joined(word: u32x8, next: u32x8) -> u32x8
    ensures { (j : ℕ) → j < 8 → slice_index result j
        ≡ add32 (slice_index word j * 2 ^ 8 % 2 ^ 32) (slice_index next j / 2 ^ 24) }
{
    let high = shift_left(word, 8);
    let low = shift_right(next, 24);
    add(high, low)
}

/// The last three bytes of a word, followed by the first byte of the padding.
#[inline(always)]
fn ended(word: u32x8) -> u32x8
    ensures { (j : ℕ) → j < 8
        → slice_index result j ≡ add32 (slice_index word j * 2 ^ 8 % 2 ^ 32) 128 }
{
    let high = shift_left(word, 8);
    add(high, splat(0x80))
}

/// The first two bytes of a word, its third byte incremented, and the first byte of the next word.
#[inline(always)]
fn counted_up(word: u32x8, next: u32x8) -> u32x8
    ensures { (j : ℕ) → j < 8 → slice_index result j
        ≡ add32 (add32 (slice_index word j / 2 ^ 16 * 2 ^ 16 % 2 ^ 32)
        (add32 (slice_index word j / 2 ^ 8) 1 * 2 ^ 24 % 2 ^ 32 / 2 ^ 16)) (slice_index next j / 2 ^ 24) }
{
    let front = shift_left(shift_right(word, 16), 16);
    let count = add(shift_right(word, 8), splat(1));
    let counted = shift_right(shift_left(count, 24), 16);
    let low = shift_right(next, 24);
    let high = add(front, counted);
    add(high, low)
}

/// The bytes of the block in lane `j`.
fn block_of(words: &[u32x8; 16], j: usize) -> [u8; 64]
    requires { j < 8 }
    ensures { (b : List ℕ) → length b ≡ 64 → AreBytes b
        → ((k : ℕ) → k < 16 → lane_at words.now k j ≡ word_at b (4 * k)) → result ≡ b }
{
    let mut block = [0; 64];
    for k in 0..16 {
        let word = words[k].to_array()[j];
        block[4 * k..4 * k + 4].copy_from_slice(&word.to_be_bytes());
    }
    block
}
