//! Applications in boxes, as a program may pass them.

use abci::{Application, CheckKind};
use app_kinds::{Counted, Counter, KvStore, Purse};
use ledger_model::{AppKind, Height, Tx};
use std::alloc::{AllocError, Global};
use std::boxed::Box;
use std::test::Fail;
use test_support::tx;

/// An application whose type is not known.
type AnyApp = Box<dyn Application + Send>;

/// Runs a first block of one transaction through a box. Returns whether the transaction is accepted, and Info then
/// returns Commit's hash.
fn plays(app: &mut AnyApp, tx: &Tx) -> Result<bool, AllocError> {
    if app.info().height != 0 {
        return Ok(false);
    }
    app.init_chain()?;
    app.begin_block(Height::new(1))?;
    let code = app.deliver_tx(tx)?;
    app.end_block()?;
    let hash = app.commit();
    let info = app.info();
    Ok(code == 0 && info.height == 1 && info.hash == hash)
}

/// Whether a transaction is accepted, by CheckTx and in the first block. The same function runs each kind, wrapped or not.
fn accepts(alloc: Global, app: &mut AnyApp, bytes: &[u8]) -> bool {
    let Ok(tx) = tx(alloc, bytes) else {
        return false;
    };
    app.check_tx(&tx, CheckKind::New) == 0 && matches!(plays(app, &tx), Ok(true))
}

/// Whether the application has this value under a key at height 1.
fn holds(app: &AnyApp, key: &[u8], wanted: &[u8]) -> bool {
    match app.query(key, 1) {
        Ok(Some(value)) => value.as_slice() == wanted,
        _ => false,
    }
}

/// Whether an application accepts a transaction in its first block, and then has this value under a key.
fn is_played(alloc: Global, mut app: AnyApp, bytes: &[u8], (key, held): (&[u8], &[u8])) -> bool {
    accepts(alloc, &mut app, bytes) && holds(&app, key, held)
}

#[test]
fn each_kind_plays_a_block_in_a_box(rt: HostRuntime) -> Result<(), Fail> {
    let alloc = rt.alloc();
    let store: AnyApp = Box::new(alloc, KvStore::new(alloc, AppKind::KvStore))?;
    assert!(rt; is_played(alloc, store, b"a=1", (b"a", b"1")));
    let counter: AnyApp = Box::new(alloc, Counter::new(alloc, AppKind::Counter))?;
    assert!(rt; is_played(alloc, counter, &[0], (b"count", &[0, 0, 0, 0, 0, 0, 0, 1])));
    let purse: AnyApp = Box::new(alloc, Counted::new(Purse::new(alloc, AppKind::Purse)))?;
    let payment = [0, 1, 0, 0, 0, 5, 0, 0, 0, 0];
    assert!(rt; is_played(alloc, purse, &payment, (&[0], &[0, 0, 3, 227, 0, 0, 0, 1])));
    Ok(())
}
