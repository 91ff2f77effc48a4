//! Reads the receipt that a client holds from the words.
ghost use Rattle.std.specs.Prelude.{◌≡◌, ◌<◌, ◌^◌, ◌++◌, ◌∷◌, ℕ, List, IfSome, IfOk, IfErr, ◌⊎◌, IsSomeAnd, Option, codes};
ghost use Rattle.clap.specs.Words.{Text, found_of, rows_of};
ghost use Rattle.plain_text.specs.Numbers.{number_text};
ghost use Rattle.ledger_model.specs.declared.config.AppKinds.{AppKinds};
ghost use Rattle.ledger_model.specs.Meanings.{Meanings};
ghost use Rattle.command_line.specs.Faults.{IsRightOf};
ghost use Rattle.command_line.specs.Options.{HasOption, OptionTable, SetsReceipt, WantsMemory};
ghost use Rattle.command_line.specs.Receipts.{SpellsReceipt, receipt_spelling};
ghost use Rattle.command_line.specs.declared.usage_fault.UsageFault.TheVariants as fault;
ghost use Rattle.cluster_setup.specs.declared.audit_settings.Receipt.{Receipt};

use crate::options::optional_text;
use crate::usage_fault::UsageFault;
use clap::ArgMatches;
use cluster_setup::Receipt;
use ledger_model::{ReplicaId, Tx};
use plain_text::{SpellingFault, number, written};
use std::alloc::Global;

/// The number before the first colon of a text, and what comes after that colon.
#[derive(Drop)]
struct Head<'a> {
    number: u32,
    rest: &'a str,
}

/// The head of a text, if it has one.
fn head_of(text: &str) -> Option<Head<'_>>
    ensures some { IfSome result (λ h. text.now ≡ number_text h.number ++ 0x3a ∷ h.rest.now) }
    ensures found { (n : ℕ) (rest : Text) → n < 2 ^ 32 → text.now ≡ number_text n ++ 0x3a ∷ rest
        → IsSomeAnd result (λ h. (h.number ≡ n) × (h.rest.now ≡ rest)) }
{
    let (digits, rest) = text.split_once(':')?;
    Some(Head {
        number: number(digits)?,
        rest,
    })
}

/// The parts of a receipt: the replica's number, the index, and the word for the transaction.
#[derive(Drop)]
struct Parts<'a> {
    replica: u8,
    index: u32,
    word: &'a str,
}

/// The parts of the receipt that a text spells, if it is one with a word for any transaction.
fn parts_of(text: &str) -> Option<Parts<'_>>
    ensures some { IfSome result (λ p. text.now ≡ receipt_spelling p.replica p.index p.word.now) }
    ensures found { (replica index : ℕ) (word : Text) → replica < 256 → index < 2 ^ 32 → text.now ≡ receipt_spelling replica index word
        → IsSomeAnd result (λ p. (p.replica ≡ replica) × ((p.index ≡ index) × (p.word.now ≡ word))) }
{
    let first = head_of(text)?;
    let second = head_of(first.rest)?;
    let replica = u8::try_from(first.number).ok()?;
    Some(Parts {
        replica,
        index: second.number,
        word: second.rest,
    })
}

/// The receipt that a text spells.
fn spelled<'a>(alloc: Global, text: &'a str) -> Result<Receipt, UsageFault<'a>>
    ensures some { IfOk result (SpellsReceipt text.now) }
    ensures none { IfErr result (λ e. (r : Receipt) → SpellsReceipt text.now r → WantsMemory e) }
    ensures told { IfErr result (λ e. (e ≡ fault.NoMemory) ⊎ (e ≡ fault.Receipt text.entry)) }
{
    let Some(parts) = parts_of(text) else {
        return Err(UsageFault::Receipt(text));
    };
    let bytes = match written(alloc, parts.word) {
        Ok(bytes) => bytes,
        Err(SpellingFault::NoMemory) => return Err(UsageFault::NoMemory),
        Err(_) => return Err(UsageFault::Receipt(text)),
    };
    let Ok(tx) = Tx::new(bytes) else {
        return Err(UsageFault::Receipt(text));
    };
    Ok(Receipt {
        replica: ReplicaId::new(parts.replica),
        index: parts.index,
        tx,
    })
}

/// The option `--receipt`, if the words contain it.
pub(crate) fn receipt<'a>(
    alloc: Global,
    matches: &ArgMatches<'a>,
) -> Result<Option<Receipt>, UsageFault<'a>>
    ensures some { IfOk result (SetsReceipt (rows_of (found_of matches.now))) }
    ensures none { IfErr result (λ e. (r : Option Receipt) → SetsReceipt (rows_of (found_of matches.now)) r → WantsMemory e) }
    ensures right { (kinds : AppKinds) (meaning : Meanings) (given : Option (List ℕ)) (table : OptionTable) → HasOption kinds table (codes "receipt")
        → IfErr result (IsRightOf kinds meaning given table (rows_of (found_of matches.now))) }
{
    match optional_text(matches, "receipt") {
        Some(text) => Ok(Some(spelled(alloc, text)?)),
        None => Ok(None),
    }
}
