//! How many entries of each history the clients of a server may use together.
ghost use Rattle.std.specs.Prelude.{◌≡◌, replicate, IfOk};

use replica_turns::ClientEntries;
use std::alloc::{AllocError, Global};
use std::marker::Model;
use std::sync::{Mutex, MutexGuard, Wait};

/// The entries of one history that clients may still use, which all clients share. Contracts see the number with which it began: no clause
/// can say how many are left behind the lock.
#[derive(Drop)]
pub struct ClientBudget {
    count: u32,
    left: Mutex<ClientEntries>,
}

impl Model for ClientBudget {
    ghost use Rattle.std.specs.Prelude.{ℕ};

    ghost Value = { ℕ };

    ghost view = { λ b. b.count };
}

impl ClientBudget {
    ghost use Rattle.std.specs.Prelude.{◌≡◌};

    /// A budget of `count` entries, all unused.
    pub fn new(count: u32) -> Self
        ensures { result ≡ count }
    {
        ClientBudget {
            count,
            left: Mutex::new(ClientEntries::new(count)),
        }
    }

    /// The entries that are left. Other clients of this history wait until the guard is dropped.
    pub(crate) fn lock<'a, R: Wait>(&'a self, rt: &R) -> MutexGuard<'a, ClientEntries> {
        self.left.lock(rt)
    }
}

/// For each of `replicas` replicas, a budget of `count` entries.
pub(crate) fn new_budgets(
    alloc: Global,
    replicas: u8,
    count: u32,
) -> Result<Vec<ClientBudget>, AllocError>
    ensures { IfOk result (λ budgets. budgets.items ≡ replicate replicas count) }
{
    let mut budgets = Vec::with_capacity(alloc, usize::from(replicas))?;
    for _replica in 0..replicas {
        budgets.push(ClientBudget::new(count))?;
    }
    Ok(budgets)
}
