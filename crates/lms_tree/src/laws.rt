//! Laws of every signature of a tree, proved from the definitions alone.
ghost use Rattle.lms_tree.specs.Laws.{SignedVerifies};

/// The signature of a message with a leaf verifies under the public key of its tree.
pub fn signed_verifies()
    ensures { SignedVerifies }
{}
