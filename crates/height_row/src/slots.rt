//! The slots in which a replica stores its open heights.
ghost use Rattle.std.specs.Prelude.{◌≡◌, ◌∷◌, ◌<◌, ℕ, [], length, MatchOption, OnOk};
ghost use Rattle.tally.specs.Tallies.{all_read, read_of};

use instance::Instance;
use std::alloc::AllocError;

/// Appends empty slots until there is one at this place. If memory runs out, some of them may have been appended.
pub(crate) fn make_room(slots: &mut Vec<Option<Instance>>, place: usize) -> Result<(), AllocError>
    ensures room { OnOk result (place < length slots.new.items) }
    // Nothing that a slot contains changes.
    ensures rows { all_read slots.new.items ≡ all_read slots.old.items }
    ensures each { (i : ℕ) → read_of slots.new.items i ≡ read_of slots.old.items i }
{
    while slots.len() <= place {
        slots.push(None)?;
    }
    Ok(())
}

/// The instance in the first slot that isn't empty, and the slots after that one.
pub(crate) fn first_of<'a>(
    slots: &'a [Option<Instance>],
) -> Option<(&'a Instance, &'a [Option<Instance>])>
    ensures { MatchOption result (all_read slots.now ≡ []) (λ found. all_read slots.now ≡ found.0.now ∷ all_read found.1.now) }
{
    for (place, slot) in slots.iter().enumerate() {
        if let Some(instance) = slot {
            return Some((instance, &slots[place + 1..]));
        }
    }
    None
}
