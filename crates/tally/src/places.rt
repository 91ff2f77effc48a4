//! A tally: one place for each replica, which stores the first statement of that replica.
ghost use Rattle.std.specs.Prelude.{◌≡◌, ◌<◌, ◌≤◌, ℕ, Bool, None, Some, length, replicate, slice_set, option_copied, IfOk, if◌then◌else◌};
ghost use Rattle.std.specs.Int.{bit_at};
ghost use Rattle.std.specs.Option.{is_none, is_some};
ghost use Rattle.std.specs.Fn.{ComputesKey};
ghost use Rattle.tally.specs.Tallies.{read_of, all_read, count_where, signers_from};
ghost use Rattle.tally.specs.Masks.{mask_read};

use ledger_model::{Config, ReplicaId};
use std::alloc::{AllocError, Global};
use std::marker::Model;

/// What was read in a round, with one place for each replica. Only the first statement of a replica counts.
///
/// Contracts see the places, from replica 0 on.
#[derive(Drop)]
pub struct Tally<X> {
    places: Vec<Option<X>>,
    /// The mask of the replicas whose places are full.
    mask: u16,
}

impl<X> Model for Tally<X> {
    ghost use Rattle.std.specs.Prelude.{◌≡◌, ◌≤◌, List, Option, length};
    ghost use Rattle.tally.specs.Masks.{mask_read};

    ghost Value = { List (Option X) };

    ghost view = { λ t. t.places.items };

    ghost invariant = { λ t. (length t.places.items ≤ 13) × (t.mask ≡ mask_read t.places.items) };
}

impl<X: Drop> Tally<X> {
    /// An empty tally, with a place for each replica of the cluster. The only error is allocation failure.
    pub fn new(alloc: Global, config: &Config) -> Result<Self, AllocError>
        ensures { IfOk result (λ tally. tally ≡ replicate config.now.replicas None) }
    {
        let mut places = Vec::with_capacity(alloc, usize::from(config.replicas))?;
        for _ in 0..config.replicas {
            places.push(None)?;
        }
        Ok(Tally { places, mask: 0 })
    }

    /// The number of places, one for each replica: at most 13.
    pub fn replicas(&self) -> u8
        ensures count { result ≡ length self.now }
        ensures few { result ≤ 13 }
    {
        self.places.len() as u8
    }

    /// Stores a replica's statement if its place is empty, and returns whether it did. Allocates nothing.
    pub fn add(&mut self, signer: ReplicaId, read: X) -> bool
        requires { signer < length self.old }
        ensures added { result ≡ is_none (read_of self.old signer) }
        ensures after { self.new ≡ (if result then slice_set self.old signer (Some read) else self.old) }
        ensures places { length self.new ≡ length self.old }
        ensures few { length self.new ≤ 13 }
    {
        let place = &mut self.places[usize::from(signer.number())];
        if place.is_some() {
            return false;
        }
        *place = Some(read);
        self.mask |= 1 << signer.number();
        true
    }

    /// Empties all places. Allocates nothing.
    pub fn clear(&mut self)
        ensures { self.new ≡ replicate (length self.old) None }
    {
        for place in 0..self.places.len() {
            self.places[place] = None;
        }
        self.mask = 0;
    }

    /// The statement that was read of a replica, if one was.
    pub fn get(&self, signer: ReplicaId) -> Option<&X>
        ensures { option_copied result ≡ read_of self.now signer }
    {
        self.places.get(usize::from(signer.number()))?.as_ref()
    }

    /// The replicas of which a statement was read, as a mask: bit r is one exactly where one of replica r was. Allocates nothing.
    pub fn mask(&self) -> u16
        ensures mask { result ≡ mask_read self.now }
        ensures bits { (r : ℕ) → bit_at result r ≡ (if is_some (read_of self.now r) then 1 else 0) }
    {
        self.mask
    }

    /// The number of statements that pass the test. Allocates nothing.
    pub fn count_where<F: FnMut(&X) -> bool>(&self, mut predicate: F) -> usize
        requires { F.IsAlwaysCallable predicate }
        ensures counted { (test : X → Bool) → ComputesKey F.FnMut test predicate → result ≡ count_where test (all_read self.now) }
        ensures bounded { result ≤ length (all_read self.now) }
        ensures few { result ≤ 13 }
    {
        let mut count = 0;
        for place in &self.places {
            if let Some(read) = place
                && predicate(read)
            {
                count += 1;
            }
        }
        count
    }

    /// The replicas of which a statement was read, ascending. The only error is allocation failure.
    pub fn signers(&self) -> Result<Vec<ReplicaId>, AllocError>
        ensures { IfOk result (λ signers. signers.items ≡ signers_from 0 self.now) }
    {
        let mut signers = Vec::with_capacity(*self.places.allocator(), self.places.len())?;
        for signer in 0..self.replicas() {
            if self.places[usize::from(signer)].is_some() {
                signers.push(ReplicaId::new(signer))?;
            }
        }
        Ok(signers)
    }

    /// The places, from replica 0 on.
    pub fn places(&self) -> &[Option<X>]
        ensures { result.now ≡ self.now }
    {
        self.places.as_slice()
    }
}
