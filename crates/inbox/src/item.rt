//! What goes through an inbox: a frame, with the number of the pass that put it.
use bytes::Bytes;
use std::marker::Model;

/// A frame's bytes, with the number of the pass that puts it.
#[derive(Drop)]
pub struct Item {
    pass: u32,
    bytes: Bytes,
}

impl Model for Item {
    ghost use Rattle.ledger_model.specs.Inboxes.{Put};

    ghost Value = { Put };

    ghost view = { λ i. record { pass = i.pass; bytes = i.bytes } };
}

impl Item {
    ghost use Rattle.std.specs.Prelude.{◌≡◌};

    /// The item of this pass with these bytes.
    pub fn new(pass: u32, bytes: Bytes) -> Self
        ensures pass { result.pass ≡ pass }
        ensures bytes { result.bytes ≡ bytes }
    {
        Item { pass, bytes }
    }

    /// The number of the pass that put it.
    pub fn pass(&self) -> u32
        ensures { result ≡ self.now.pass }
    {
        self.pass
    }

    /// The frame.
    pub fn into_bytes(self) -> Bytes
        ensures { result ≡ self.bytes }
    {
        self.bytes
    }
}
