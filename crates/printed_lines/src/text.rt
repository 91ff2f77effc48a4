//! A text that grows, to which bytes and batches can be appended.
use ledger_model::{Batch, Tx};
use plain_text::Escaped;
use std::alloc::{AllocError, Global};
use std::marker::Model;

/// A text that grows.
#[derive(Debug, Drop)]
pub struct Text {
    bytes: Vec<u8>,
}

impl Model for Text {
    ghost use Rattle.std.specs.Prelude.{ℕ, List};

    ghost Value = { List ℕ };

    ghost view = { λ t. t.bytes.items };
}

impl Text {
    ghost use Rattle.std.specs.Prelude.{◌≡◌, ◌++◌, [], OnOk, codes};
    ghost use Rattle.std.specs.List.{flat_map};
    ghost use Rattle.plain_text.specs.Transactions.{bytes_text};
    ghost use Rattle.plain_text.specs.Transactions.{batch_text};

    /// The empty text.
    pub fn new(alloc: Global) -> Self
        ensures { result ≡ [] }
    {
        Text {
            bytes: Vec::new(alloc),
        }
    }

    /// Its bytes.
    pub fn as_bytes(&self) -> &[u8]
        ensures { result.now ≡ self.now }
    {
        self.bytes.as_slice()
    }

    /// The allocator of the text.
    pub fn allocator(&self) -> Global {
        *self.bytes.allocator()
    }

    /// Appends a text.
    pub fn add(&mut self, text: &str) -> Result<(), AllocError>
        ensures { OnOk result (self.new ≡ self.old ++ text.now) }
    {
        self.bytes.extend_from_slice(text.as_bytes())
    }

    /// Appends bytes in their printed form: each as itself, or as a backslash and two hexadecimal digits.
    pub fn add_bytes(&mut self, bytes: &[u8]) -> Result<(), AllocError>
        ensures { OnOk result (self.new ≡ self.old ++ bytes_text bytes.now) }
    {
        let escaped = Escaped(bytes);
        let text = format!(in self.allocator(); "{escaped}")?;
        self.add(&text)
    }

    /// Appends transactions, each preceded by a comma.
    fn add_more(&mut self, transactions: &[Tx]) -> Result<(), AllocError>
        ensures { OnOk result (self.new ≡ self.old ++ flat_map (λ t. codes "," ++ bytes_text t) transactions.now) }
    {
        for transaction in transactions {
            self.add(",")?;
            self.add_bytes(transaction.as_bytes())?;
        }
        Ok(())
    }

    /// Appends a batch: its transactions in brackets, separated by commas.
    #[tactic(auto, unfolding(plain_text::specs::Transactions::batch_text))]
    pub fn add_batch(&mut self, batch: &Batch) -> Result<(), AllocError>
        ensures { OnOk result (self.new ≡ self.old ++ batch_text batch.now) }
    {
        match batch.transactions() {
            [] => self.add("[]"),
            [first, rest @ ..] => {
                self.add("[")?;
                self.add_bytes(first.as_bytes())?;
                self.add_more(rest)?;
                self.add("]")
            }
        }
    }
}
