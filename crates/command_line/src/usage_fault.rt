//! What is wrong with a command line.
ghost use Rattle.std.specs.Prelude.{◌≡◌};
ghost use Rattle.command_line.specs.declared.usage_fault.UsageFault.TheVariants.{NoMemory};

use crate::seed_words::SeedWords;
use clap::error::ErrorKind;
use ledger_model::Tx;
use plain_text::{ShownText, SpellingFault};
use std::alloc::AllocError;
use std::error::Error;
use std::fmt;

/// What a subcommand reads from standard input.
#[derive(Clone, Copy, Debug)]
pub enum Input {
    /// The frames of `abft deliver`.
    Frames,
    /// The scenario of `abft simulate`.
    Scenario,
    /// The histories of `abft audit`.
    AuditedHistories,
    /// The histories of `abft draw`.
    DrawnHistories,
}

/// Why the words of a command line give no settings: what was wrong, and what was expected.
#[derive(Debug, Drop)]
pub enum UsageFault<'a> {
    /// The words are no command line of the program, or ask for help or the version.
    CommandLine(clap::Error),
    /// The word for this option is no number within its limits.
    Number {
        option: &'static str,
        least: u32,
        most: u32,
        word: &'a str,
    },
    /// The word for this option is neither of its two numbers.
    Neither {
        option: &'static str,
        one: u32,
        other: u32,
        word: &'a str,
    },
    /// The word for `--kind` is neither the number of an application nor its name.
    Kind(&'a str),
    /// The word for `--seed` is not what the subcommand takes for it.
    Seed {
        taken: SeedWords,
        word: &'a str,
    },
    /// The word for `--seed-file` names no file with a seed: 64 hexadecimal digits, or 32 bytes.
    SeedFile(&'a str),
    /// The words contain `--seed` and `--seed-file`.
    TwoSeeds,
    /// The words ask for a random seed without `--write-seed`, or contain `--write-seed` without asking for a random seed.
    UnwrittenSeed,
    /// The words contain `--cluster` and this option, which the file of `--cluster` stands for.
    BesideFile(&'static str),
    /// The word for `--cluster` names no public file of a cluster whose application the program has.
    ClusterFile(&'a str),
    /// Fewer than `3 * faults + 1` replicas.
    TooFew {
        replicas: u8,
        faults: u8,
    },
    /// The word for this option is not written as a transaction is.
    Spelling {
        option: &'static str,
        fault: SpellingFault,
    },
    /// The word for this option encodes no byte, or more bytes than a transaction has.
    NoTransaction {
        option: &'static str,
        word: &'a str,
    },
    /// The application's check returns this code for the transaction of this option.
    Rejected {
        option: &'static str,
        code: u32,
        word: &'a str,
    },
    /// The word for `--receipt` is no receipt: `R:I:TX`, the numbers of a replica and of an entry, and a transaction.
    Receipt(&'a str),
    /// The subcommand of the program of this name reads this from standard input, and not from the file that the word names.
    NamedInput {
        program: &'static str,
        input: Input,
        word: &'a str,
    },
    /// The word for the statement to sign is neither `report` nor `ack`.
    What(&'a str),
    /// The word for `--log` names no level.
    Level(&'a str),
    /// An option without a default is missing.
    Missing(&'static str),
    /// The subcommand is missing.
    NoSubcommand,
    /// Memory ran out.
    NoMemory,
}

impl UsageFault<'_> {
    ghost use Rattle.std.specs.Prelude.{◌↔◌, IsTrue};
    ghost use Rattle.command_line.specs.Options.{AsksForText, WantsMemory};

    /// Whether this is the help or the version, which the words ask for. This is no fault, and goes to standard output.
    pub fn is_asked_for(&self) -> bool
        ensures { IsTrue result ↔ AsksForText self.now }
    {
        match self {
            UsageFault::CommandLine(error) => !error.use_stderr(),
            _ => false,
        }
    }

    /// Whether memory ran out, here or in clap.
    pub fn is_want_of_memory(&self) -> bool
        ensures { IsTrue result ↔ WantsMemory self.now }
    {
        match self {
            UsageFault::NoMemory => true,
            UsageFault::CommandLine(error) => error.kind() == ErrorKind::OutOfMemory,
            _ => false,
        }
    }
}

/// Writes which numbers an option takes, and the word that it got.
fn show_number<W: fmt::Write>(
    f: &mut fmt::Formatter<W>,
    option: &str,
    least: u32,
    most: u32,
    word: &str,
) -> fmt::Result {
    let word = ShownText(word);
    write!(
        f,
        "error: --{option} is a number from {least} to {most}, not '{word}'"
    )
}

/// Writes which two numbers an option takes, and the word that it got.
fn show_neither<W: fmt::Write>(
    f: &mut fmt::Formatter<W>,
    option: &str,
    one: u32,
    other: u32,
    word: &str,
) -> fmt::Result {
    let word = ShownText(word);
    write!(f, "error: --{option} is {one} or {other}, not '{word}'")
}

/// Writes the code with which the application's check refuses the transaction of an option.
fn show_rejected<W: fmt::Write>(
    f: &mut fmt::Formatter<W>,
    option: &str,
    code: u32,
    word: &str,
) -> fmt::Result {
    let word = ShownText(word);
    write!(
        f,
        "error: --{option} '{word}' is refused by the application's check: code {code}"
    )
}

/// Writes how a subcommand gets its input, which the words named.
fn show_named<W: fmt::Write>(
    f: &mut fmt::Formatter<W>,
    program: &str,
    input: Input,
    word: &str,
) -> fmt::Result {
    let (told, subcommand) = match input {
        Input::Frames => ("the frames come", "deliver"),
        Input::Scenario => ("the scenario comes", "simulate"),
        Input::AuditedHistories => ("the histories come", "audit"),
        Input::DrawnHistories => ("the histories come", "draw"),
    };
    let word = ShownText(word);
    write!(
        f,
        "error: {told} on standard input: {program} {subcommand} <{word}"
    )
}

/// Writes what is expected, and the word that is there.
fn show_wanted<W: fmt::Write>(f: &mut fmt::Formatter<W>, wanted: &str, word: &str) -> fmt::Result {
    let word = ShownText(word);
    write!(f, "error: {wanted}, not '{word}'")
}

/// Writes what `--seed` takes, and the word that it got.
fn show_seed<W: fmt::Write>(
    f: &mut fmt::Formatter<W>,
    taken: SeedWords,
    word: &str,
) -> fmt::Result {
    let wanted = match taken {
        SeedWords::Digits => "--seed is 64 hexadecimal digits",
        SeedWords::DigitsOrRandom => "--seed is 64 hexadecimal digits or random",
    };
    show_wanted(f, wanted, word)
}

/// Writes what is wrong with an option.
fn show_option<W: fmt::Write, D: fmt::Display>(
    f: &mut fmt::Formatter<W>,
    option: &str,
    told: &D,
) -> fmt::Result {
    write!(f, "error: --{option} {told}")
}

/// Writes that the word for an option is no transaction.
fn show_no_transaction<W: fmt::Write>(
    f: &mut fmt::Formatter<W>,
    option: &str,
    word: &str,
) -> fmt::Result {
    let word = ShownText(word);
    write!(
        f,
        "error: --{option} is a transaction of 1 to {} bytes, not '{word}'",
        Tx::MAX_LEN
    )
}

/// Writes that there are too few replicas.
fn show_too_few<W: fmt::Write>(f: &mut fmt::Formatter<W>, replicas: u8, faults: u8) -> fmt::Result {
    write!(
        f,
        "error: --n {replicas} is too few for --t {faults}: n is at least 3t + 1"
    )
}

impl fmt::Display for UsageFault<'_> {
    fn fmt<W: fmt::Write>(&self, f: &mut fmt::Formatter<W>) -> fmt::Result {
        match self {
            UsageFault::CommandLine(error) => fmt::Display::fmt(error, f),
            UsageFault::Number {
                option,
                least,
                most,
                word,
            } => show_number(f, option, *least, *most, word),
            UsageFault::Neither {
                option,
                one,
                other,
                word,
            } => show_neither(f, option, *one, *other, word),
            UsageFault::Kind(word) => {
                show_wanted(f, "--kind is 1, 2, 3, kvstore, counter or purse", word)
            }
            UsageFault::Seed { taken, word } => show_seed(f, *taken, word),
            UsageFault::SeedFile(file) => {
                show_wanted(
                    f,
                    "--seed-file is a file of 64 hexadecimal digits, or of 32 bytes",
                    file,
                )
            }
            UsageFault::TwoSeeds => {
                f.write_str("error: the seed comes from --seed or from --seed-file, not from both")
            }
            UsageFault::UnwrittenSeed => f.write_str(
                "error: --seed random and --write-seed go together: the new seed is kept in that file, or nowhere",
            ),
            UsageFault::BesideFile(option) => {
                show_option(
                    f,
                    option,
                    &"is not taken beside --cluster, whose file stands for it",
                )
            }
            UsageFault::ClusterFile(file) => {
                show_wanted(
                    f,
                    "--cluster is the public file of a cluster that runs an application of this program",
                    file,
                )
            }
            UsageFault::TooFew { replicas, faults } => show_too_few(f, *replicas, *faults),
            UsageFault::Spelling { option, fault } => show_option(f, option, fault),
            UsageFault::NoTransaction { option, word } => show_no_transaction(f, option, word),
            UsageFault::Rejected { option, code, word } => show_rejected(f, option, *code, word),
            UsageFault::Receipt(word) => {
                show_wanted(
                    f,
                    "--receipt is R:I:TX, such as 0:0:a=1, with a transaction of 1 to 64 bytes",
                    word,
                )
            }
            UsageFault::NamedInput {
                program,
                input,
                word,
            } => show_named(f, program, *input, word),
            UsageFault::What(word) => show_wanted(f, "what to sign is 'report' or 'ack'", word),
            UsageFault::Level(word) => show_wanted(
                f,
                "--log is off, error, warn, info, debug or trace",
                word,
            ),
            UsageFault::Missing(option) => show_option(f, option, &"is missing"),
            UsageFault::NoSubcommand => f.write_str("error: a subcommand is missing"),
            UsageFault::NoMemory => f.write_str("error: out of memory"),
        }
    }
}

impl Error for UsageFault<'_> {}

impl From<AllocError> for UsageFault<'_> {
    ghost from_gives = { λ _ e. e ≡ NoMemory };

    fn from(_error: AllocError) -> Self {
        UsageFault::NoMemory
    }
}
