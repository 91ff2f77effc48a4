//! Counts the lines of a text that is read piece by piece, so that the reader can stop as soon as the text can't be a scenario.
ghost use Rattle.std.specs.Prelude.{◌≡◌, ◌∷◌, ◌++◌, [], ℕ, List, true};
ghost use Rattle.scenario_texts.specs.Lines.{HasLines, IsCounted, IsTooLarge, IsWithinLineLimits};

use crate::reading::{MAX_LINE_LEN, MAX_LINES};

/// The number of lines of a text so far.
#[derive(Clone, Copy, Debug)]
pub struct LineCount {
    /// The number of lines that a line feed ended.
    pub ended: u32,
    /// The number of bytes after the last line feed.
    pub under_way: usize,
}

impl LineCount {
    /// The count of the empty text.
    pub fn new() -> LineCount
        ensures none { HasLines [] result }
        ensures small { IsWithinLineLimits result }
    {
        LineCount {
            ended: 0,
            under_way: 0,
        }
    }

    /// Counts the next byte. Returns false if the text now has a line too many, or a line that is too long.
    fn take(&mut self, byte: u8) -> bool
        ensures counted { (text : List ℕ) → HasLines text self.old → IsCounted result (text ++ byte ∷ []) self.new }
        ensures fits { (text : List ℕ) → HasLines text self.old → (IsTooLarge text → ⊥) → result ≡ true → IsTooLarge (text ++ byte ∷ []) → ⊥ }
        ensures small { result ≡ true → IsWithinLineLimits self.new }
    {
        if self.ended >= MAX_LINES {
            return false;
        }
        if byte == b'\n' {
            self.ended += 1;
            self.under_way = 0;
            return true;
        }
        if self.under_way >= MAX_LINE_LEN {
            return false;
        }
        self.under_way += 1;
        true
    }

    /// Counts the next bytes. Returns false if the text now has a line too many, or a line that is too long. Then the
    /// text is no scenario, and its first bad line is the same however the text continues.
    pub fn take_all(&mut self, bytes: &[u8]) -> bool
        ensures counted { (text : List ℕ) → HasLines text self.old → IsCounted result (text ++ bytes.now) self.new }
        // If the text was not too large before, and the result is true, it is not too large now.
        ensures fits { (text : List ℕ) → HasLines text self.old → (IsTooLarge text → ⊥) → result ≡ true → IsTooLarge (text ++ bytes.now) → ⊥ }
        ensures small { result ≡ true → IsWithinLineLimits self.old → IsWithinLineLimits self.new }
    {
        for byte in bytes {
            if !self.take(*byte) {
                return false;
            }
        }
        true
    }
}
