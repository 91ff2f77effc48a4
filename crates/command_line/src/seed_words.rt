//! What the option `--seed` takes.

/// What a subcommand takes for `--seed`.
#[derive(Clone, Copy, Debug, PartialEq, Eq)]
pub enum SeedWords {
    /// The 64 hexadecimal digits of a seed.
    Digits,
    /// These, or `random`, for a seed that is drawn.
    DigitsOrRandom,
}
