//! Batches in ascending order, each once.
ghost use Rattle.std.specs.Prelude.{◌≡◌, [], not, filter, take, IfOk, OnOk, OnErr, IsTrue};
ghost use Rattle.std.specs.List.{list_any, position};
ghost use Rattle.ledger_model.specs.Values.{same_value, is_below, with_value};
ghost use Rattle.ledger_model.specs.Spelling.{are_ascending};

use ledger_model::{Batch, Batches};
use std::alloc::{AllocError, Global};
use std::marker::Model;

/// Batches in ascending order, each once.
#[derive(Drop)]
pub(crate) struct Ascending {
    values: Vec<Batch>,
}

impl Model for Ascending {
    ghost use Rattle.std.specs.Prelude.{ℕ, List, IsTrue};
    ghost use Rattle.ledger_model.specs.Spelling.{are_ascending};

    ghost Value = { List (List (List ℕ)) };

    ghost view = { λ a. a.values.items };

    ghost invariant = { λ a. IsTrue (are_ascending a.values.items) };
}

impl Ascending {
    /// The empty list.
    pub(crate) fn new(alloc: Global) -> Self
        ensures { result ≡ [] }
    {
        Ascending {
            values: Vec::new(alloc),
        }
    }

    /// The batches, in ascending order.
    pub(crate) fn as_slice(&self) -> &[Batch]
        ensures value { result.now ≡ self.now }
        ensures ascend { IsTrue (are_ascending self.now) }
    {
        self.values.as_slice()
    }

    /// Whether the batch is among them.
    pub(crate) fn has(&self, value: &Batch) -> bool
        ensures { result ≡ list_any (same_value value.now) self.now }
    {
        self.values.iter().any(|held| value == held)
    }

    /// A copy of the list. The only error is allocation failure.
    pub(crate) fn copy(&self) -> Result<Self, AllocError>
        ensures ok { IfOk result (λ copied. copied ≡ self.now) }
        ensures ascend { IsTrue (are_ascending self.now) }
    {
        let copied = Batches::from_slice(*self.values.allocator(), self.values.as_slice())?;
        Ok(Ascending {
            values: copied.into_vec(),
        })
    }

    /// Inserts a copy of the batch in order, unless the list has it.
    pub(crate) fn put(&mut self, value: &Batch) -> Result<(), AllocError>
        ensures ok { OnOk result (self.new ≡ with_value value.now self.old) }
        ensures err { OnErr result (self.new ≡ self.old) }
    {
        if self.values.contains(value) {
            return Ok(());
        }
        let place = first_above(self.values.as_slice(), value).unwrap_or(self.values.len());
        self.values.insert(place, value.copy()?)?;
        Ok(())
    }

    /// Keeps only the `count` least batches that differ from this one.
    pub(crate) fn keep_least_others(&mut self, value: &Batch, count: usize)
        ensures { self.new ≡ take count (filter (λ v. not (same_value value.now v)) self.old) }
    {
        self.values.retain(|held| value != held);
        self.values.truncate(count);
    }
}

/// The index of the first batch above the value, if there is one.
fn first_above(values: &[Batch], value: &Batch) -> Option<usize>
    ensures { result ≡ position (is_below value.now) values.now }
{
    values.iter().position(|held| value < held)
}
