//! Laws of every series of signatures, proved from the definitions alone.
ghost use Rattle.key_ring.specs.Laws.{NoLeafTwice};

/// The leaf numbers in the signatures of one signer ascend, whatever it signs and whichever calls run out of memory: no
/// leaf signs twice.
pub fn no_leaf_twice()
    ensures { NoLeafTwice }
{}
