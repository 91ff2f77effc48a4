//! The instances of the open heights, one after the other.
use crate::slots::first_of;
use instance::Instance;
use std::marker::Model;

/// The instances of the open heights, in ascending order. Contracts see the list of those that are still to come.
#[derive(Drop)]
pub struct OpenInstances<'a> {
    slots: &'a [Option<Instance>],
}

impl<'a> Model for OpenInstances<'a> {
    ghost use Rattle.std.specs.Prelude.{List};
    ghost use Rattle.tally.specs.Tallies.{all_read};
    ghost use Rattle.instance.specs.Instances.{InstanceView};

    ghost Value = { List InstanceView };

    ghost view = { λ o. all_read o.slots.now };
}

impl<'a> OpenInstances<'a> {
    ghost use Rattle.std.specs.Prelude.{◌≡◌};
    ghost use Rattle.tally.specs.Tallies.{all_read};

    /// The instances in these slots.
    pub(crate) fn new(slots: &'a [Option<Instance>]) -> Self
        ensures { result ≡ all_read slots.now }
    {
        OpenInstances { slots }
    }
}

impl<'a> Iterator for OpenInstances<'a> {
    ghost use Rattle.std.specs.Iterator.{YieldsFirstRef, item_count};

    type Item = &'a Instance;

    ghost next_gives = { YieldsFirstRef (λ rows. rows) };

    ghost remaining = { item_count (λ rows. rows) };

    fn next(&mut self) -> Option<&'a Instance> {
        let (instance, later) = first_of(self.slots)?;
        self.slots = later;
        Some(instance)
    }
}
