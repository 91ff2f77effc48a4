//! Reads batches: transactions in brackets, separated by commas.
ghost use Rattle.std.specs.Prelude.{◌≡◌, ◌==◌, ◌<◌, ◌≤◌, map, option_map, IfOk, IfSome, length};
ghost use Rattle.std.specs.List.{slice_split};
ghost use Rattle.ledger_model.specs.Versions.{batch_limit};
ghost use Rattle.scenario_texts.specs.Reading.{bracketed, elements, tx_of, txs_of, batch_of};

use crate::fields::bytes;
use ledger_model::{Batch, Tx, Version};
use std::alloc::{AllocError, Global};

/// The words of the text, which this separator separates.
pub(crate) fn words(alloc: Global, text: &str, separator: char) -> Result<Vec<&str>, AllocError>
    requires { separator < 128 }
    ensures { IfOk result (λ words. map (λ word. word.now) words.items ≡ slice_split (λ b. b == separator) text.now) }
{
    text.split(separator).collect(alloc)
}

/// The text between the brackets.
#[tactic(auto, unfolding(crate::specs::Reading::bracketed))]
fn bracketed(word: &str) -> Option<&str>
    ensures { option_map (λ inner. inner.now) result ≡ bracketed word.now }
{
    let Some(rest) = word.strip_prefix('[') else {
        return None;
    };
    rest.strip_suffix(']')
}

/// The words between the commas; none if there is nothing in the brackets.
#[tactic(auto, unfolding(crate::specs::Reading::elements))]
fn elements(alloc: Global, inner: &str) -> Result<Vec<&str>, AllocError>
    ensures { IfOk result (λ words. map (λ word. word.now) words.items ≡ elements inner.now) }
{
    if inner.is_empty() {
        return Ok(Vec::new(alloc));
    }
    words(alloc, inner, ',')
}

/// The transaction that the word encodes, if it encodes one.
#[tactic(auto, unfolding(crate::specs::Reading::tx_of))]
fn transaction(alloc: Global, word: &str) -> Result<Option<Tx>, AllocError>
    ensures { IfOk result (λ found. found ≡ tx_of word.now) }
{
    match bytes(alloc, word)? {
        Some(bytes) => Ok(Tx::new(bytes).ok()),
        None => Ok(None),
    }
}

/// The transactions that the words encode, if each encodes one.
fn transactions(alloc: Global, words: &[&str]) -> Result<Option<Vec<Tx>>, AllocError>
    ensures { IfOk result (λ found. option_map (λ transactions. transactions.items) found ≡ txs_of (map (λ word. word.now) words.now)) }
{
    let mut transactions = Vec::with_capacity(alloc, words.len())?;
    for word in words {
        let Some(transaction) = transaction(alloc, word)? else {
            return Ok(None);
        };
        transactions.push(transaction)?;
    }
    Ok(Some(transactions))
}

/// The batch that the word encodes, if it encodes one that frames of this version carry.
#[tactic(auto, unfolding(crate::specs::Reading::batch_of))]
pub(crate) fn batch(
    version: Version,
    alloc: Global,
    word: &str,
) -> Result<Option<Batch>, AllocError>
    ensures read { IfOk result (λ found. found ≡ batch_of version word.now) }
    ensures fits { IfOk result (λ found. IfSome found (λ batch. length batch ≤ batch_limit version)) }
{
    let Some(inner) = bracketed(word) else {
        return Ok(None);
    };
    let words = elements(alloc, inner)?;
    let Some(transactions) = transactions(alloc, words.as_slice())? else {
        return Ok(None);
    };
    if transactions.len() > version.batch_limit() {
        return Ok(None);
    }
    Ok(Batch::new(transactions).ok())
}
