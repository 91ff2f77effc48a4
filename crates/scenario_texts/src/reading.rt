//! Reads a text as a scenario, line by line.
ghost use Rattle.std.specs.Prelude.{◌≡◌, ◌≢◌, ◌⊎◌, ◌∷◌, ◌++◌, ℕ, IfOk, IfErr, MatchOption, MatchResult, Ok, Err, option_map};
ghost use Rattle.scenario_texts.specs.Lawful.{IsPlan};
ghost use Rattle.scenario_texts.specs.Lines.{IsBadAt, IsUnbroken, SpellsPlan, counts};
ghost use Rattle.scenario_texts.specs.Plans.{Plan, plan_of};
ghost use Rattle.scenario_texts.specs.Reading.{limit_after};
ghost use Rattle.scenario_texts.specs.declared.fault.TextFault.TheVariants as fault;

use crate::fault::TextFault;
use crate::line_reading::next;
use crate::scenario::Scenario;
use ledger_model::{AppKinds, Version};
use std::alloc::Global;

/// The most lines of a text.
pub(crate) const MAX_LINES: u32 = 10_000;

/// The most bytes of a line after a line `frames 2`, and so of any line, without its line feed.
pub(crate) const MAX_LINE_LEN: usize = 1_300_000;

/// The most bytes of a line, without its line feed, if no line `frames 2` precedes it.
const SHORT_LINE_LEN: usize = 400_000;

/// The first line, without its line feed, and the text after it; `None` if there is no line feed.
fn first_line(text: &[u8]) -> Option<(&[u8], &[u8])>
    ensures { MatchOption result (IsUnbroken text.now) (λ cut. (text.now ≡ cut.0.now ++ 10 ∷ cut.1.now) × IsUnbroken cut.0.now) }
{
    let end = text.iter().position(|byte| *byte == b'\n')?;
    Some((&text[..end], &text[end + 1..]))
}

/// Whether the line counts: it is neither empty nor a comment, which starts with `#`.
fn counts(line: &[u8]) -> bool
    ensures { result ≡ counts line.now }
{
    !matches!(line, [] | [b'#', ..])
}

/// The most bytes that the next line may have without its line feed, after the lines that were read.
fn line_limit(so_far: &Option<Scenario>) -> usize
    ensures { result ≡ limit_after (option_map plan_of so_far.now) }
{
    match so_far {
        Some(scenario) if matches!(scenario.setup.config.frames, Version::Two) => MAX_LINE_LEN,
        _ => SHORT_LINE_LEN,
    }
}

/// The scenario that the text encodes (`docs/FORMATS.md`), for a program that has these kinds of applications: a cluster of
/// another kind is a bad line. If several lines are bad, the fault has the first.
pub fn read(alloc: Global, kinds: AppKinds, text: &[u8]) -> Result<Scenario, TextFault>
    ensures spelled { IfOk result (λ scenario. SpellsPlan kinds text.now (plan_of scenario)) }
    ensures lawful { IfOk result (λ scenario. IsPlan kinds (plan_of scenario)) }
    ensures only { (plan : Plan) → SpellsPlan kinds text.now plan
        → MatchResult result (λ scenario. plan_of scenario ≡ plan) (λ why. why ≡ fault.NoMemory) }
    ensures bad { IfErr result (λ why. (why ≡ fault.NoMemory) ⊎ ((n : ℕ) × ((why ≡ fault.BadLine n) × IsBadAt kinds text.now n))) }
{
    let mut so_far = None;
    let mut left = text;
    let mut number = 1;
    while let Some((line, rest)) = first_line(left) {
        let limit = line_limit(&so_far);
        if number > MAX_LINES || line.len() > limit {
            return Err(TextFault::BadLine(number));
        }
        if counts(line) {
            let Some(scenario) = next(alloc, kinds, so_far, line)? else {
                return Err(TextFault::BadLine(number));
            };
            so_far = Some(scenario);
        }
        left = rest;
        number += 1;
    }
    match so_far {
        Some(scenario) if left.is_empty() => Ok(scenario),
        _ => Err(TextFault::BadLine(number)),
    }
}
