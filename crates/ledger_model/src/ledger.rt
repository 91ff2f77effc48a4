//! The ledger: the committed batches, one for each height.
use crate::Batch;
use std::alloc::{AllocError, Global};
use std::marker::Model;

/// The sequential ledger that a cluster is equivalent to: a list of batches that only grows.
#[derive(Drop)]
pub struct Ledger {
    blocks: Vec<Batch>,
}

impl Model for Ledger {
    ghost use Rattle.std.specs.Prelude.{ℕ, List};

    ghost Value = { List (List (List ℕ)) };

    ghost view = { λ l. l.blocks.items };
}

impl Ledger {
    ghost use Rattle.std.specs.Prelude.{◌≡◌, ◌++◌, ◌∷◌, [], OnOk, OnErr};

    /// The ledger with no block.
    pub fn new(alloc: Global) -> Self
        ensures { result ≡ [] }
    {
        Ledger {
            blocks: Vec::new(alloc),
        }
    }

    /// Appends a block. The only error is allocation failure, which leaves the ledger as it was.
    pub fn append(&mut self, block: Batch) -> Result<(), AllocError>
        ensures ok { OnOk result (self.new ≡ self.old ++ block ∷ []) }
        ensures err { OnErr result (self.new ≡ self.old) }
    {
        self.blocks.push(block)?;
        Ok(())
    }

    /// Its blocks, from height 1 on.
    pub fn blocks(&self) -> &[Batch]
        ensures { result.now ≡ self.now }
    {
        self.blocks.as_slice()
    }
}
