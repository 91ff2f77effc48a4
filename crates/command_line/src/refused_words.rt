//! The faults of words that clap refuses.
ghost use Rattle.std.specs.Prelude.{◌≡◌, ◌≢◌, ◌⊎◌, IfSome, Some, map, slice_get, slice_index};
ghost use Rattle.clap.specs.Words.{kind_of};
ghost use Rattle.clap.specs.declared.error.ErrorKind.TheVariants as kind;
ghost use Rattle.command_line.specs.Faults.{NamesInput};
ghost use Rattle.command_line.specs.declared.usage_fault.UsageFault.TheVariants as fault;

use crate::usage_fault::{Input, UsageFault};
use clap::error::ErrorKind;

/// The word after the subcommand, if it is no option.
fn operand<'a>(words: &'a [&'a str]) -> Option<&'a str>
    ensures third { IfSome result (λ word. slice_get (map (λ w. w.now) words.entry.now) 2 ≡ Some word.now) }
    ensures plain { IfSome result (λ word. slice_index word.now 0 ≢ 0x2d) }
{
    let word = *words.get(2)?;
    if word.starts_with('-') {
        None
    } else {
        Some(word)
    }
}

/// The fault if a word names a file, but the subcommand reads standard input.
fn named_input<'a>(program: &'static str, words: &'a [&'a str]) -> Option<UsageFault<'a>>
    ensures { IfSome result (NamesInput program.now (map (λ w. w.now) words.entry.now)) }
{
    let word = operand(words)?;
    match *words.get(1)? {
        "deliver" => Some(UsageFault::NamedInput {
            program,
            input: Input::Frames,
            word,
        }),
        "simulate" => Some(UsageFault::NamedInput {
            program,
            input: Input::Scenario,
            word,
        }),
        "audit" => Some(UsageFault::NamedInput {
            program,
            input: Input::AuditedHistories,
            word,
        }),
        "draw" => Some(UsageFault::NamedInput {
            program,
            input: Input::DrawnHistories,
            word,
        }),
        _ => None,
    }
}

/// The fault of words that clap refuses with this error, for a program of this name.
pub(crate) fn fault_of<'a>(
    error: clap::Error,
    program: &'static str,
    words: &'a [&'a str],
) -> UsageFault<'a>
    ensures kept { (kind_of error ≡ kind.UnknownArgument → ⊥) → result ≡ fault.CommandLine error }
    ensures named { (result ≡ fault.CommandLine error)
        ⊎ ((kind_of error ≡ kind.UnknownArgument) × NamesInput program.now (map (λ w. w.now) words.entry.now) result) }
{
    if error.kind() == ErrorKind::UnknownArgument
        && let Some(fault) = named_input(program, words)
    {
        return fault;
    }
    UsageFault::CommandLine(error)
}
