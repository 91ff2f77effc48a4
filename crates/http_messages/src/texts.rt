//! Texts of byte strings.
ghost use Rattle.std.specs.Prelude.{◌≡◌, IfOk};
ghost use Rattle.std.specs.Option.{option_copied};
ghost use Rattle.std.specs.String.{string_bytes};
ghost use Rattle.base64.specs.Engines.{standard};
ghost use Rattle.base64.specs.GeneralPurpose.{encode_of};
ghost use Rattle.http_messages.specs.Texts.{base64_text, hash_text, json_value};

use base64::engine::general_purpose::STANDARD;
use sha2::{Digest, Sha256};
use std::alloc::{AllocError, Global};

/// The bytes in base64.
#[tactic(auto, unfolding(crate::specs::Texts::base64_text))]
pub(crate) fn base64(alloc: Global, bytes: &[u8]) -> Result<String, AllocError>
    ensures { IfOk result (λ text. string_bytes text ≡ base64_text bytes.now) }
{
    STANDARD.encode(alloc, bytes)
}

/// The hash of a transaction: its SHA-256 in upper-case hexadecimal digits.
#[tactic(auto, unfolding(crate::specs::Texts::hash_text))]
pub(crate) fn hash(alloc: Global, tx: &[u8]) -> Result<String, AllocError>
    ensures { IfOk result (λ text. string_bytes text ≡ hash_text tx.now) }
{
    let digest = Sha256::digest(tx);
    hex::encode_upper(alloc, digest.as_slice())
}

/// A value in base64 and quotes, or `null`.
#[tactic(auto, unfolding(crate::specs::Texts::json_value))]
pub(crate) fn value(alloc: Global, value: Option<&[u8]>) -> Result<String, AllocError>
    ensures { IfOk result (λ text. string_bytes text ≡ json_value (option_copied value.entry)) }
{
    match value {
        Some(bytes) => {
            let bytes = base64(alloc, bytes)?;
            format!(in alloc; "\"{bytes}\"")
        }
        None => format!(in alloc; "null"),
    }
}
