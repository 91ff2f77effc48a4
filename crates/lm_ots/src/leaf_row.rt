//! The public values of eight consecutive leaves, whose chains are walked in parallel.
ghost use Rattle.std.specs.Prelude.{◌≡◌, ◌≢◌, ℕ, ◌+◌, ◌*◌, ◌^◌, ◌<◌, ◌≤◌, ◌++◌, [], ◌∷◌, length, slice_index_or};
ghost use Rattle.std.specs.Int.{w16, w32, to_be_bytes};
ghost use Rattle.ledger_model.specs.Signatures.{chain, chain_start, last_step, leaf_key};
ghost use Rattle.lm_ots.specs.Parameters.{numbers_of};
ghost use Rattle.lm_ots.specs.Steps.{step_input};

use crate::block::{LANES, SEED_STEP, step_message, steps_each, value_in};
use crate::ends::public_value;
use crate::leaf_chains::CHAINS;
use crate::{Identifier, Params, Seed};

/// The most ends that the chains of eight leaves have.
const ENDS: usize = LANES * CHAINS;

/// The public values of eight consecutive leaves, from `first` on, each as [`crate::public_hash`] returns it.
///
/// This takes half the time of computing them one after another. Allocates nothing.
pub fn public_hashes(
    params: Params,
    identifier: &Identifier,
    first: u32,
    seed: &Seed,
) -> [[u8; 32]; LANES]
    requires { first + 8 ≤ 2 ^ 32 }
    ensures { (k : ℕ) → k < 8 → slice_index_or result k []
        ≡ leaf_key (numbers_of params) identifier.now seed.now (first + k) }
{
    let ends = all_ends(params, identifier, first, seed);
    let chains = usize::from(params.width.chains());
    let mut keys = [[0; 32]; LANES];
    for lane in 0..LANES {
        let from = CHAINS * lane;
        let leaf = first + lane as u32;
        keys[lane] = public_value(identifier, leaf, &ends[from..from + chains]);
    }
    keys
}

/// The ends of the chains of eight consecutive leaves. Those of leaf `first + k` start at index `67 * k`.
fn all_ends(params: Params, identifier: &Identifier, first: u32, seed: &Seed) -> [[u8; 32]; ENDS]
    requires { first + 8 ≤ 2 ^ 32 }
    ensures many { length result ≡ 536 }
    ensures ends { (k i : ℕ) → k < 8 → i < (numbers_of params).chains → slice_index_or result (67 * k + i) []
        ≡ chain identifier.now (first + k) i 0 (last_step (numbers_of params))
        (chain_start identifier.now seed.now (first + k) i) }
{
    let mut ends = [[0; 32]; ENDS];
    for index in 0..params.width.chains() {
        let values = row_ends(params, identifier, first, index, seed);
        put_each(&mut ends, usize::from(index), &values);
    }
    ends
}

/// Stores the end of one chain of each of eight leaves at its index.
fn put_each(ends: &mut [[u8; 32]; ENDS], index: usize, values: &[[u8; 32]; LANES])
    requires { index < 67 }
    ensures many { length ends.old ≡ 536 }
    ensures put { (k : ℕ) → k < 8
        → slice_index_or ends.new (67 * k + index) [] ≡ slice_index_or values.now k [] }
    ensures others { (k i : ℕ) → k < 8 → i < 67 → i ≢ index
        → slice_index_or ends.new (67 * k + i) [] ≡ slice_index_or ends.old (67 * k + i) [] }
{
    for lane in 0..LANES {
        ends[CHAINS * lane + index] = values[lane];
    }
}

/// The ends of one chain of eight consecutive leaves (RFC 8554, section 4.3).
fn row_ends(
    params: Params,
    identifier: &Identifier,
    first: u32,
    index: u16,
    seed: &Seed,
) -> [[u8; 32]; LANES]
    requires { first + 8 ≤ 2 ^ 32 }
    ensures { (k : ℕ) → k < 8 → slice_index_or result k []
        ≡ chain identifier.now (first + k) index 0 (last_step (numbers_of params))
        (chain_start identifier.now seed.now (first + k) index) }
{
    let mut messages = seed_messages(identifier, first, index, seed);
    steps_each(&mut messages, u16::from(params.width.last_step()) + 1);
    values_in(&messages)
}

/// The messages that make the starts of one chain of eight consecutive leaves (RFC 8554, Appendix A).
fn seed_messages(identifier: &Identifier, first: u32, index: u16, seed: &Seed) -> [[u8; 55]; LANES]
    requires { first + 8 ≤ 2 ^ 32 }
    ensures messages { (k : ℕ) → k < 8 → slice_index_or result k []
        ≡ identifier.now ++ to_be_bytes w32 (first + k) ++ to_be_bytes w16 index ++ (255 ∷ []) ++ seed.now }
    ensures named { length identifier.now ≡ 16 }
{
    let mut messages = [[0; 55]; LANES];
    for lane in 0..LANES {
        let leaf = first + lane as u32;
        messages[lane] = step_message(identifier, leaf, index, SEED_STEP, seed.as_bytes());
    }
    messages
}

/// The values that the steps of eight messages start from.
fn values_in(messages: &[[u8; 55]; LANES]) -> [[u8; 32]; LANES]
    ensures { (k : ℕ) → k < 8
        → slice_index_or result k [] ≡ step_input (slice_index_or messages.now k []) }
{
    let mut values = [[0; 32]; LANES];
    for lane in 0..LANES {
        values[lane].copy_from_slice(value_in(&messages[lane]));
    }
    values
}
