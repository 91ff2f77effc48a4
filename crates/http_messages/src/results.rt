//! The results of answers, as JSON.
ghost use Rattle.std.specs.Prelude.{◌≡◌, ◌++◌, IfOk, OnOk, codes};
ghost use Rattle.std.specs.Option.{option_copied};
ghost use Rattle.std.specs.String.{string_bytes};
ghost use Rattle.std.specs.List.{flat_map};
ghost use Rattle.http_messages.specs.Texts.{base64_text};
ghost use Rattle.http_messages.specs.Results.{status_result, info_result, log_text, query_result, json_tx, txs_text, block_result, unconfirmed_result, receipt_text, sync_result, rejected_sync, tx_result, commit_result, rejected_commit, kind_name};

use crate::answer::Receipt;
use crate::texts::{base64, hash, value};
use ledger_model::{AppKind, Batch, Height, ReplicaId, Tx};
use std::alloc::{AllocError, Global};

/// How far a replica is.
#[tactic(auto, unfolding(crate::specs::Results::status_result))]
pub(crate) fn status(
    alloc: Global,
    replica: ReplicaId,
    round: u32,
    height: Height,
) -> Result<String, AllocError>
    ensures { IfOk result (λ text. string_bytes text ≡ status_result replica round height) }
{
    let replica = replica.number();
    let height = height.number();
    format!(in alloc;
        "{{\"node_info\":{{\"network\":\"abft\",\"moniker\":\"replica {replica}\"}},\
         \"sync_info\":{{\"latest_block_height\":\"{height}\",\"catching_up\":false}},\
         \"abft\":{{\"replica\":{replica},\"round\":{round}}}}}"
    )
}

/// The name of a kind of application.
fn kind_name(kind: AppKind) -> &'static str
    ensures { result.now ≡ kind_name kind }
{
    match kind {
        AppKind::Own => "own",
        AppKind::KvStore => "kvstore",
        AppKind::Counter => "counter",
        AppKind::Purse => "purse",
    }
}

/// What an application says of itself.
#[tactic(auto, unfolding(crate::specs::Results::info_result))]
pub(crate) fn info(
    alloc: Global,
    kind: AppKind,
    height: Height,
    hash: &[u8],
) -> Result<String, AllocError>
    ensures { IfOk result (λ text. string_bytes text ≡ info_result kind height hash.now) }
{
    let kind = kind_name(kind);
    let height = height.number();
    let hash = base64(alloc, hash)?;
    format!(in alloc;
        "{{\"response\":{{\"data\":\"{kind}\",\"last_block_height\":\"{height}\",\"last_block_app_hash\":\"{hash}\"}}}}"
    )
}

/// Whether there is a value, in words.
fn log(found: Option<&[u8]>) -> &'static str
    ensures { result.now ≡ log_text (option_copied found.entry) }
{
    match found {
        Some(_) => "exists",
        None => "does not exist",
    }
}

/// What an application has under a key.
#[tactic(auto, unfolding(crate::specs::Results::query_result))]
pub(crate) fn query(
    alloc: Global,
    key: &[u8],
    found: Option<&[u8]>,
    height: Height,
) -> Result<String, AllocError>
    ensures { IfOk result (λ text. string_bytes text ≡ query_result key.now (option_copied found.entry) height) }
{
    let log = log(found);
    let height = height.number();
    let key = base64(alloc, key)?;
    let value = value(alloc, found)?;
    format!(in alloc;
        "{{\"response\":{{\"code\":0,\"log\":\"{log}\",\"info\":\"\",\"index\":\"0\",\"key\":\"{key}\",\"value\":{value},\
         \"proofOps\":null,\"height\":\"{height}\",\"codespace\":\"\"}}}}"
    )
}

/// Appends a transaction in base64 and quotes.
#[tactic(auto, unfolding(crate::specs::Results::json_tx))]
fn add_tx(out: &mut String, tx: &Tx) -> Result<(), AllocError>
    ensures { OnOk result (string_bytes out.new ≡ string_bytes out.old ++ json_tx tx.now) }
{
    let alloc = *out.allocator();
    let bytes = base64(alloc, tx.as_bytes())?;
    write!(out, "\"{bytes}\"")
}

/// Appends transactions, each preceded by a comma.
fn add_more(out: &mut String, transactions: &[Tx]) -> Result<(), AllocError>
    ensures { OnOk result (string_bytes out.new ≡ string_bytes out.old ++ flat_map (λ t. codes "," ++ json_tx t) transactions.now) }
{
    for tx in transactions {
        out.push_str(",")?;
        add_tx(out, tx)?;
    }
    Ok(())
}

/// Appends transactions, separated by commas.
fn add_txs(out: &mut String, transactions: &[Tx]) -> Result<(), AllocError>
    ensures { OnOk result (string_bytes out.new ≡ string_bytes out.old ++ txs_text transactions.now) }
{
    match transactions {
        [] => Ok(()),
        [first, rest @ ..] => {
            add_tx(out, first)?;
            add_more(out, rest)
        }
    }
}

/// The block at a height.
#[tactic(auto, unfolding(crate::specs::Results::block_result))]
pub(crate) fn block(alloc: Global, height: Height, batch: &Batch) -> Result<String, AllocError>
    ensures { IfOk result (λ text. string_bytes text ≡ block_result height batch.now) }
{
    let height = height.number();
    let mut txs = String::new(alloc);
    add_txs(&mut txs, batch.transactions())?;
    format!(in alloc;
        "{{\"block_id\":{{\"hash\":\"\",\"parts\":{{\"total\":0,\"hash\":\"\"}}}},\
         \"block\":{{\"header\":{{\"height\":\"{height}\"}},\"data\":{{\"txs\":[{txs}]}}}}}}"
    )
}

/// How many transactions wait for a block, and how many bytes they have together.
#[tactic(auto, unfolding(crate::specs::Results::unconfirmed_result))]
pub(crate) fn unconfirmed(alloc: Global, count: u64, bytes: u64) -> Result<String, AllocError>
    ensures { IfOk result (λ text. string_bytes text ≡ unconfirmed_result count bytes) }
{
    format!(in alloc;
        "{{\"n_txs\":\"{count}\",\"total\":\"{count}\",\"total_bytes\":\"{bytes}\",\"txs\":null}}"
    )
}

/// Where a transaction is kept.
#[tactic(auto, unfolding(crate::specs::Results::receipt_text))]
fn receipt_text(alloc: Global, receipt: Receipt) -> Result<String, AllocError>
    ensures { IfOk result (λ text. string_bytes text ≡ receipt_text receipt.replica receipt.index) }
{
    let Receipt { replica, index } = receipt;
    let replica = replica.number();
    format!(in alloc; "{{\"replica\":{replica},\"index\":{index}}}")
}

/// The pool has a transaction.
#[tactic(auto, unfolding(crate::specs::Results::sync_result))]
pub(crate) fn sync(alloc: Global, tx: &[u8], receipt: Receipt) -> Result<String, AllocError>
    ensures { IfOk result (λ text. string_bytes text ≡ sync_result tx.now receipt.replica receipt.index) }
{
    let hash = hash(alloc, tx)?;
    let receipt = receipt_text(alloc, receipt)?;
    format!(in alloc;
        "{{\"code\":0,\"data\":\"\",\"log\":\"\",\"codespace\":\"\",\"hash\":\"{hash}\",\"abft\":{receipt}}}"
    )
}

/// The application refused a transaction with this code.
#[tactic(auto, unfolding(crate::specs::Results::rejected_sync))]
pub(crate) fn rejected_sync(alloc: Global, tx: &[u8], code: u32) -> Result<String, AllocError>
    ensures { IfOk result (λ text. string_bytes text ≡ rejected_sync tx.now code) }
{
    let hash = hash(alloc, tx)?;
    format!(in alloc;
        "{{\"code\":{code},\"data\":\"\",\"log\":\"\",\"codespace\":\"\",\"hash\":\"{hash}\"}}"
    )
}

/// What the application returned for a transaction.
#[tactic(auto, unfolding(crate::specs::Results::tx_result))]
fn tx_result(alloc: Global, code: u32) -> Result<String, AllocError>
    ensures { IfOk result (λ text. string_bytes text ≡ tx_result code) }
{
    format!(in alloc;
        "{{\"code\":{code},\"data\":null,\"log\":\"\",\"info\":\"\",\"gas_wanted\":\"0\",\
         \"gas_used\":\"0\",\"events\":[],\"codespace\":\"\"}}"
    )
}

/// The block at a height has a transaction, for which the application returned this code.
#[tactic(auto, unfolding(crate::specs::Results::commit_result))]
pub(crate) fn commit(
    alloc: Global,
    tx: &[u8],
    receipt: Receipt,
    height: Height,
    code: u32,
) -> Result<String, AllocError>
    ensures { IfOk result (λ text. string_bytes text ≡ commit_result tx.now receipt.replica receipt.index height code) }
{
    let height = height.number();
    let check = tx_result(alloc, 0)?;
    let deliver = tx_result(alloc, code)?;
    let hash = hash(alloc, tx)?;
    let receipt = receipt_text(alloc, receipt)?;
    format!(in alloc;
        "{{\"check_tx\":{check},\"deliver_tx\":{deliver},\"hash\":\"{hash}\",\"height\":\"{height}\",\"abft\":{receipt}}}"
    )
}

/// The application refused a transaction with this code, so no block gets it.
#[tactic(auto, unfolding(crate::specs::Results::rejected_commit))]
pub(crate) fn rejected_commit(alloc: Global, tx: &[u8], code: u32) -> Result<String, AllocError>
    ensures { IfOk result (λ text. string_bytes text ≡ rejected_commit tx.now code) }
{
    let check = tx_result(alloc, code)?;
    let deliver = tx_result(alloc, 0)?;
    let hash = hash(alloc, tx)?;
    format!(in alloc;
        "{{\"check_tx\":{check},\"deliver_tx\":{deliver},\"hash\":\"{hash}\",\"height\":\"0\"}}"
    )
}
