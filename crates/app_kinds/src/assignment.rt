//! The key and the value that a transaction of a store sets.
ghost use Rattle.std.specs.Prelude.{◌≡◌, ◌≤◌, length, position};
ghost use Rattle.ledger_model.specs.Kinds.{is_equals_sign, key_of, value_in};

/// The key and the value of a transaction.
pub fn key_and_value(tx: &[u8]) -> (&[u8], &[u8])
    ensures key { result.0.now ≡ key_of tx.now }
    ensures value { result.1.now ≡ value_in tx.now }
    ensures short_key { length result.0.now ≤ length tx.now }
    ensures short_value { length result.1.now ≤ length tx.now }
{
    match equals_sign(tx) {
        Some(at) => (&tx[..at], &tx[at + 1..]),
        None => (tx, tx),
    }
}

/// The index of the first `=`.
fn equals_sign(tx: &[u8]) -> Option<usize>
    ensures { result ≡ position is_equals_sign tx.now }
{
    tx.iter().position(|byte| *byte == b'=')
}
