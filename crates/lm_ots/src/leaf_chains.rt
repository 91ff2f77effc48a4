//! The chains of a leaf, each on its way from a value to its end, eight of them in parallel.
use crate::block::{LANES, SEED_STEP, step_message, steps_each, value_in};
use crate::waiting::Waiting;
use crate::{Identifier, Seed};

/// The greatest number of chains that a leaf has.
pub(crate) const CHAINS: usize = 67;

/// The chains of a leaf. A chain that has not been started has no steps left.
#[derive(Drop)]
pub(crate) struct Chains {
    identifier: Identifier,
    leaf: u32,
    /// The current value of each chain.
    values: [[u8; 32]; CHAINS],
    /// The number of each chain's next step.
    next: [u8; CHAINS],
    /// The number of steps that each chain has left.
    left: [u16; CHAINS],
}

impl Chains {
    ghost use Rattle.std.specs.Prelude.{◌≡◌, ◌≢◌, ℕ, ◌-◌, ◌<◌, ◌≤◌, [], length, slice_index, slice_index_or, slice_set};
    ghost use Rattle.ledger_model.specs.Signatures.{chain, chain_start};
    ghost use Rattle.lm_ots.specs.Ends.{end_of, message_of};

    /// The chains of a leaf, none of which has been started.
    pub(crate) fn new(identifier: &Identifier, leaf: u32) -> Self
        ensures identifier { result.identifier ≡ identifier.now }
        ensures leaf { result.leaf ≡ leaf }
    {
        Chains {
            identifier: *identifier,
            leaf,
            values: [[0; 32]; CHAINS],
            next: [0; CHAINS],
            left: [0; CHAINS],
        }
    }

    /// Sets the value of a chain, the number of its next step, and the number of steps that it has left.
    fn set(&mut self, index: u16, next: u8, left: u16, value: &[u8])
        requires index { index < 67 }
        requires whole { length value.now ≡ 32 }
        ensures many { (length self.old.values ≡ 67) × (length self.old.next ≡ 67)
            × (length self.old.left ≡ 67) }
        ensures set { self.new ≡ record self.old {
          values = slice_set self.old.values index value.now;
          next = slice_set self.old.next index next;
          left = slice_set self.old.left index left;
        } }
    {
        let index = usize::from(index);
        self.values[index].copy_from_slice(value);
        self.next[index] = next;
        self.left[index] = left;
    }

    /// Starts a chain from the seed (RFC 8554, Appendix A). It will take `steps` steps from its start.
    pub(crate) fn begin(&mut self, index: u16, seed: &Seed, steps: u8)
        requires { index < 67 }
        ensures identifier { self.new.identifier ≡ self.old.identifier }
        ensures leaf { self.new.leaf ≡ self.old.leaf }
        ensures end { end_of self.new index ≡ chain self.old.identifier self.old.leaf index 0 steps
            (chain_start self.old.identifier seed.now self.old.leaf index) }
        ensures others { (i : ℕ) → i ≢ index → end_of self.new i ≡ end_of self.old i }
    {
        self.set(index, SEED_STEP, u16::from(steps) + 1, seed.as_bytes());
    }

    /// Starts a chain from its value before the step `from`. It will take the steps up to `to`.
    pub(crate) fn resume(&mut self, index: u16, from: u8, to: u8, value: &[u8])
        requires index { index < 67 }
        requires forward { from ≤ to }
        requires whole { length value.now ≡ 32 }
        ensures identifier { self.new.identifier ≡ self.old.identifier }
        ensures leaf { self.new.leaf ≡ self.old.leaf }
        ensures end { end_of self.new index
            ≡ chain self.old.identifier self.old.leaf index from (to - from) value.now }
        ensures others { (i : ℕ) → i ≢ index → end_of self.new i ≡ end_of self.old i }
    {
        self.set(index, from, u16::from(to - from), value);
    }

    /// The values of the chains after each has taken the steps that it has left.
    pub(crate) fn ends(mut self) -> [[u8; 32]; CHAINS]
        ensures many { length result ≡ 67 }
        ensures ends { (i : ℕ) → i < 67 → slice_index_or result i [] ≡ end_of self i }
    {
        self.walk();
        self.finish();
        self.values()
    }

    /// The current values of the chains.
    fn values(&self) -> [[u8; 32]; CHAINS]
        ensures values { result ≡ self.now.values }
        ensures many { length result ≡ 67 }
    {
        self.values
    }

    /// Walks the chains in turns, eight at a time, starting with those that have the most steps left.
    fn walk(&mut self)
        ensures { (i : ℕ) → i < 67 → end_of self.new i ≡ end_of self.old i }
    {
        let mut waiting = Waiting::new(&self.left);
        let mut picks = waiting.first_picks();
        for turn in 0..CHAINS {
            let count = self.least_left(&picks);
            if count == 0 {
                break;
            }
            self.turn(picks, count);
            picks = self.next_picks(picks, &mut waiting);
        }
    }

    /// Walks each chain that is not at its end, one by one. [`Chains::walk`] should have left none, but that is not
    /// proved: it matters only for time.
    fn finish(&mut self)
        ensures ends { (i : ℕ) → i < 67 → end_of self.new i ≡ end_of self.old i }
        ensures none_left { (i : ℕ) → i < 67 → slice_index self.new.left i ≡ 0 }
    {
        for index in 0..67 {
            let left = self.left[usize::from(index)];
            if left > 0 {
                self.turn([index; LANES], left);
            }
        }
    }

    /// Takes `count` steps of each chain in `picks`, in parallel. A chain may be picked more than once.
    fn turn(&mut self, picks: [u16; LANES], count: u16)
        requires picks { (k : ℕ) → k < 8 → slice_index picks k < 67 }
        requires count { (k : ℕ) → k < 8 → count ≤ slice_index self.old.left (slice_index picks k) }
        ensures ends { (i : ℕ) → i < 67 → end_of self.new i ≡ end_of self.old i }
        ensures taken { (k : ℕ) → k < 8 → slice_index self.new.left (slice_index picks k)
            ≡ slice_index self.old.left (slice_index picks k) - count }
        ensures fewer { (i : ℕ) → i < 67 → slice_index self.new.left i ≤ slice_index self.old.left i }
    {
        let mut messages = self.messages(&picks);
        let lefts = self.lefts_after(&picks, count);
        steps_each(&mut messages, count);
        for lane in 0..LANES {
            let message = &messages[lane];
            self.set(picks[lane], message[22], lefts[lane], value_in(message));
        }
    }

    /// The message that the next step of a chain hashes.
    fn message(&self, index: u16) -> [u8; 55]
        requires { index < 67 }
        ensures message { result ≡ message_of self.now index }
        ensures named { length self.now.identifier ≡ 16 }
    {
        let place = usize::from(index);
        step_message(
            &self.identifier,
            self.leaf,
            index,
            self.next[place],
            &self.values[place],
        )
    }

    /// The messages that the next steps of eight chains hash.
    fn messages(&self, picks: &[u16; LANES]) -> [[u8; 55]; LANES]
        requires { (k : ℕ) → k < 8 → slice_index picks.now k < 67 }
        ensures messages { (k : ℕ) → k < 8
            → slice_index_or result k [] ≡ message_of self.now (slice_index picks.now k) }
        ensures named { length self.now.identifier ≡ 16 }
    {
        let mut messages = [[0; 55]; LANES];
        for lane in 0..LANES {
            messages[lane] = self.message(picks[lane]);
        }
        messages
    }

    /// The number of steps that a chain has left.
    fn left_of(&self, index: u16) -> u16
        requires { index < 67 }
        ensures { result ≡ slice_index self.now.left index }
    {
        self.left[usize::from(index)]
    }

    /// The number of steps that each of eight chains has left after `count` more.
    fn lefts_after(&self, picks: &[u16; LANES], count: u16) -> [u16; LANES]
        requires { (k : ℕ) → k < 8 → slice_index picks.now k < 67 }
        ensures { (k : ℕ) → k < 8
            → slice_index result k ≡ slice_index self.now.left (slice_index picks.now k) - count }
    {
        let mut lefts = [0; LANES];
        for lane in 0..LANES {
            lefts[lane] = self.left_of(picks[lane]).saturating_sub(count);
        }
        lefts
    }

    /// The least number of steps that any of eight chains has left.
    fn least_left(&self, picks: &[u16; LANES]) -> u16
        requires { (k : ℕ) → k < 8 → slice_index picks.now k < 67 }
        ensures { (k : ℕ) → k < 8 → result ≤ slice_index self.now.left (slice_index picks.now k) }
    {
        let mut least = u16::MAX;
        for lane in 0..LANES {
            least = least.min(self.left_of(picks[lane]));
        }
        least
    }

    /// The chain with the most steps left, among eight.
    fn longest(&self, picks: &[u16; LANES]) -> u16
        requires { (k : ℕ) → k < 8 → slice_index picks.now k < 67 }
        ensures { result < 67 }
    {
        let mut longest = picks[0];
        for lane in 1..LANES {
            if self.left_of(picks[lane]) > self.left_of(longest) {
                longest = picks[lane];
            }
        }
        longest
    }

    /// The chains of the next turn: each chain that has ended is replaced by the next waiting one, or else by one
    /// that is already picked.
    fn next_picks(&self, picks: [u16; LANES], waiting: &mut Waiting) -> [u16; LANES]
        requires { (k : ℕ) → k < 8 → slice_index picks k < 67 }
        ensures { (k : ℕ) → k < 8 → slice_index result k < 67 }
    {
        let mut next = picks;
        for lane in 0..LANES {
            if self.left_of(picks[lane]) == 0 {
                next[lane] = waiting.take().unwrap_or(picks[lane]);
            }
        }
        self.doubled(next)
    }

    /// These chains, with each one that has ended replaced by the one with the most steps left.
    fn doubled(&self, picks: [u16; LANES]) -> [u16; LANES]
        requires { (k : ℕ) → k < 8 → slice_index picks k < 67 }
        ensures { (k : ℕ) → k < 8 → slice_index result k < 67 }
    {
        let longest = self.longest(&picks);
        let mut doubled = picks;
        for lane in 0..LANES {
            if self.left_of(picks[lane]) == 0 {
                doubled[lane] = longest;
            }
        }
        doubled
    }
}
