//! The number of SHA-256 blocks that an operation hashes, if it does nothing else (RFC 8554).
ghost use Rattle.std.specs.Prelude.{◌≡◌, ◌+◌, ◌*◌, ◌<◌, ◌≤◌, ◌^◌, length};
ghost use Rattle.ledger_model.specs.Signatures.{digit, message_digest, sum_up};
ghost use Rattle.lm_ots.specs.Parameters.{numbers_of};
ghost use Rattle.lms_speed.specs.Blocks.{blocks_of, leaf_blocks, path_blocks, signing_blocks, tree_blocks, verification_blocks};

use lm_ots::{Identifier, Params, signed_steps};

/// The number of bytes with which every hash starts, except that of a chain's step: `I || u32(q) || u16(mark)`.
const FRONT: u64 = 22;

/// The length in bytes of a hash.
const HASH: u64 = 32;

/// The number of blocks that SHA-256 makes of `len` bytes.
pub fn blocks(len: u64) -> u64
    requires { len < 2 ^ 32 }
    ensures { result ≡ blocks_of len }
{
    (len + 9).div_ceil(64)
}

/// The blocks of a leaf after its chains are at their ends: those of its public value (RFC 8554, section 4.3), and
/// those of the hash at its node (section 5.3).
fn leaf_blocks(params: Params) -> u64
    ensures { result ≡ leaf_blocks (numbers_of params) }
{
    let ends = HASH * u64::from(params.width.chains());
    blocks(FRONT + ends) + blocks(FRONT + HASH)
}

/// The blocks of the inner nodes from a leaf up to the root (RFC 8554, section 5.4.2).
fn path_blocks(params: Params) -> u64
    ensures { result ≡ path_blocks (numbers_of params) }
{
    u64::from(params.height.levels()) * blocks(FRONT + 2 * HASH)
}

/// The blocks of a key generation: each chain starts with one block and takes all its steps; then come the leaves and
/// the inner nodes (RFC 8554, sections 4.3 and 5.3, Appendix A).
pub fn key_generation_blocks(params: Params) -> u64
    ensures { result ≡ tree_blocks (numbers_of params) }
{
    let leaves = u64::from(params.leaves());
    let chain = 1 + u64::from(params.width.last_step());
    let leaf = u64::from(params.width.chains()) * chain + leaf_blocks(params);
    leaves * leaf + (leaves - 1) * blocks(FRONT + 2 * HASH)
}

/// The blocks of making one signature, and of verifying it.
#[derive(Clone, Copy)]
pub struct SignatureBlocks {
    pub signing: u64,
    pub verification: u64,
}

/// The blocks of a signature with this leaf and randomizer, given the tree, and of its verification. Both take steps of
/// the chains and the digest of the message. Only the signer makes the starts of the chains and the randomizer; only
/// the verifier makes the leaf and the path.
pub fn signature_blocks(
    params: Params,
    identifier: &Identifier,
    leaf: u32,
    randomizer: &[u8],
    message: &[u8],
) -> SignatureBlocks
    requires { length message.now < 2 ^ 31 }
    ensures signing { result.signing ≡ signing_blocks (numbers_of params) (sum_up (digit (numbers_of params)
        (message_digest identifier.now leaf randomizer.now message.now)) (numbers_of params).chains) (length message.now) }
    ensures verification { result.verification ≡ verification_blocks (numbers_of params) (sum_up (digit (numbers_of params)
        (message_digest identifier.now leaf randomizer.now message.now)) (numbers_of params).chains) (length message.now) }
{
    let steps = u64::from(signed_steps(params, identifier, leaf, randomizer, message));
    let chains = u64::from(params.width.chains());
    let all_steps = chains * u64::from(params.width.last_step());
    let digest = blocks(FRONT + HASH + message.len() as u64);
    SignatureBlocks {
        signing: steps + chains + 1 + digest,
        verification: all_steps.saturating_sub(steps)
            + digest
            + leaf_blocks(params)
            + path_blocks(params),
    }
}
