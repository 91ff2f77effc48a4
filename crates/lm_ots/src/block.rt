//! The message that one step of a chain hashes, which is one block of SHA-256; and eight such steps in parallel.
ghost use Rattle.std.specs.Prelude.{◌≡◌, ℕ, ◌+◌, ◌%◌, ◌<◌, ◌++◌, [], ◌∷◌, length, take, slice_index_or};
ghost use Rattle.std.specs.Int.{w16, w32, to_be_bytes};
ghost use Rattle.lm_ots.specs.Steps.{place_in, step_input, rest_of};

use crate::Identifier;
use sha_lanes::take_turns;

/// The number of chains that take a step in parallel.
pub(crate) const LANES: usize = 8;

/// The number of the step that makes the start of a chain from the seed (RFC 8554, Appendix A). Step 0 follows it.
pub(crate) const SEED_STEP: u8 = 255;

/// A step's message with the leaf filled in, and zeros after it.
fn leaf_message(identifier: &Identifier, leaf: u32) -> [u8; 55]
    ensures leaf { take 20 result ≡ identifier.now ++ to_be_bytes w32 leaf }
    ensures whole { length result ≡ 55 }
    ensures named { length identifier.now ≡ 16 }
{
    let mut message = [0; 55];
    message[..16].copy_from_slice(identifier.as_bytes());
    message[16..20].copy_from_slice(&leaf.to_be_bytes());
    message
}

/// The message that a step of a chain hashes: `I || u32(q) || u16(i) || u8(j) || tmp` (RFC 8554, section 4.3).
pub(crate) fn step_message(
    identifier: &Identifier,
    leaf: u32,
    index: u16,
    step: u8,
    value: &[u8; 32],
) -> [u8; 55]
    ensures message { result ≡ identifier.now ++ to_be_bytes w32 leaf ++ to_be_bytes w16 index
        ++ (step ∷ []) ++ value.now }
    ensures named { length identifier.now ≡ 16 }
{
    let mut message = leaf_message(identifier, leaf);
    message[20..22].copy_from_slice(&index.to_be_bytes());
    message[22] = step;
    message[23..].copy_from_slice(value);
    message
}

/// The value that a step starts from, taken from its message.
pub(crate) fn value_in(message: &[u8; 55]) -> &[u8]
    ensures value { result.now ≡ step_input message.now }
    ensures whole { length result.now ≡ 32 }
{
    &message[23..]
}

/// Takes `count` steps of each chain, in parallel.
pub(crate) fn steps_each(messages: &mut [[u8; 55]; LANES], count: u16)
    ensures rest { (k n : ℕ) → k < 8
        → rest_of (slice_index_or messages.new k []) n ≡ rest_of (slice_index_or messages.old k []) (count + n) }
    ensures place { (k : ℕ) → k < 8
        → place_in (slice_index_or messages.new k []) ≡ place_in (slice_index_or messages.old k []) }
{
    take_turns(messages, count);
}
