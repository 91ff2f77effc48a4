//! What a replica of a cluster is: correct, or a liar.
use key_ring::Signer;

/// A replica of a cluster. `R` is what the world has of a correct one.
#[derive(Drop)]
pub enum Party<R> {
    /// It follows the rules.
    Correct(R),
    /// It sends whatever it likes. The world has only its key pair.
    Liar(Signer),
}
