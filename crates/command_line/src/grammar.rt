//! The grammar of the command line, as clap gets it: subcommands, options, defaults and help.
ghost use Rattle.std.specs.Prelude.{◌≡◌, IfOk};
ghost use Rattle.clap.specs.Words.{app_of, new_app};
ghost use Rattle.command_line.specs.Grammar.{at_top, abft_app};

use crate::audit_grammar::AUDIT;
use crate::draw_grammar::DRAW;
use crate::keys_grammar::KEYS;
use crate::running_grammar::{RUN_CLUSTER, SERVE};
use crate::shared_arguments::{APP_KIND, FAULTS, FRAMES, REPLICAS, SEED, SEED_FILE, TREE, WIDTH};
use crate::subcommand::{Argument, Kind, Subcommand, clap_commands};
use app_states::Opening;
use clap::Command;
use ledger_model::AppKinds;
use std::alloc::{AllocError, Global};

/// The version that `abft --version` prints.
const VERSION: &str = "0.1.0";

/// The end of `abft --help`.
const EXAMPLE: &str = "Example:
  abft sign report --replica 2 --value b=7 | abft deliver --replica 1";

/// The end of the help of a program with an application of its own.
const OWN_EXAMPLE: &str =
    "The ledger is that of abft, with another application: its documents hold for this program, too.";

/// The end of `abft sign --help`.
const SIGNED: &str = "\
Output: one frame, as bytes. A report has the batch of --value as its initial and only proper value,
no flag ALL and no locks; an acknowledgement is on that batch.

Exit status:
  0  the frame was written
  2  a fault of usage
  3  out of memory, a file that can't be read, or a failed write

Every call reuses leaf 0, which makes the key forgeable. Use this seed only for experiments.";

/// The end of `abft deliver --help`.
const LINES: &str = "\
Lines, one for each frame:
  accepted         the frame was read
  ignored N CAUSE  it was ignored: the cause's number and name, as in 'ignored 7 Repeated'

The last line, if the stream is wrong:
  fault 1 TooLong    a frame longer than 150000 bytes was announced, or than 600000 with --frames 2
  fault 2 Malformed  a frame is not spelled as one, or has version 2 without --frames 2
  cut                the stream ends within a frame

Exit status:
  0  each frame was delivered
  1  'fault' or 'cut' was printed
  2  a fault of usage
  3  out of memory, a full history, or a failed read or write";

/// The end of `abft simulate --help`.
const SCENARIO: &str = "\
Input, a scenario: the cluster (n, t and the kind of application), liars if any, and the steps:
  config 4 1 1
  submit 0 a=1
  submit 1 a=1
  submit 2 a=1
  propose 0 1
  propose 1 1
  propose 2 1
  round
  round
  round
  round
  execute 1

Lines, of replica R at height H; docs/SCENARIOS.md has all of them:
  submit R ok                  R's pool took the transaction; or 'submit R refused K'
  propose R H BATCH            R opened H, with this initial value; or 'propose R H refused K'
  end R C sent S               R ended a round, round C is open, and R sent S frames
  decided R H BATCH            R decided when that round ended
  deliver R accepted           R read a frame
  deliver R ignored N CAUSE    R ignored a frame: the cause's number and name
  execute R H BATCH codes C,D  R ran a block, with a code for each transaction; or 'execute R nothing'
  query R H VALUE              what R holds under the key; or 'query R H absent'
  retire R H ok                R retired the heights below H; or 'retire R H refused K'
  info R H HASH                the height and the hash of R's application
  refused K                    the step was refused, for reason K
  lie-lock cannot              too few reports for that lock's proof; or 'lie-stale cannot'
  exhausted                    the liar's key has no leaf left
Of the frames that a 'round' passes, only those that are ignored have a line.
With --histories the histories of the correct replicas are written, as bytes, in place of the lines.
A text with a bad line prints 'line N bad' alone, with the number of the first bad line.

Exit status:
  0  the scenario was played
  1  'line N bad' was printed, and nothing was played
  2  a fault of usage
  3  out of memory, or a failed read or write";

/// The end of `simulate --help` in a program with an application of its own.
const OWN_SCENARIO: &str = "\
Input, a scenario: the line 'config N T 0', liars if any, and the steps, such as 'submit 0 TX', 'propose 0 1', 'round' and
'execute 1'. docs/SCENARIOS.md of the ledger has all steps, and all lines that they print.
With --histories the histories of the correct replicas are written, as bytes, in place of the lines.
A text with a bad line prints 'line N bad' alone, with the number of the first bad line.

Exit status:
  0  the scenario was played
  1  'line N bad' was printed, and nothing was played
  2  a fault of usage
  3  out of memory, or a failed read or write";

/// What is signed.
const WHAT: Argument = Argument {
    name: "what",
    kind: Kind::Word,
    help: "What to sign: report or ack",
};

/// The replica that signs.
const SIGNER: Argument = Argument {
    name: "replica",
    kind: Kind::Value("0"),
    help: "Who signs, below n",
};

/// The height that the statement is of.
const HEIGHT: Argument = Argument {
    name: "height",
    kind: Kind::Value("1"),
    help: "The height, 1 to 4096",
};

/// The phase that the statement is of.
const PHASE: Argument = Argument {
    name: "phase",
    kind: Kind::Value("1"),
    help: "The phase, 1 to 1000000000",
};

/// The batch that the statement has.
const VALUE: Argument = Argument {
    name: "value",
    kind: Kind::FirstTx,
    help: "The one transaction of the batch",
};

/// `abft sign WHAT`.
const SIGN: Subcommand = Subcommand {
    name: "sign",
    about: "Signs a report or an acknowledgement, and writes its frame to standard output",
    usage: None,
    arguments: &[
        REPLICAS, FAULTS, APP_KIND, WIDTH, TREE, FRAMES, SEED, SEED_FILE, WHAT, SIGNER, HEIGHT,
        PHASE, VALUE,
    ],
    after_help: SIGNED,
    own_help: None,
};

/// The replica that reads the frames.
const RECIPIENT: Argument = Argument {
    name: "replica",
    kind: Kind::Value("1"),
    help: "Which replica, below n",
};

/// The transaction of its pool.
const SUBMITTED: Argument = Argument {
    name: "value",
    kind: Kind::FirstTx,
    help: "The transaction that it submits",
};

/// The height that it opens.
const OPENED: Argument = Argument {
    name: "height",
    kind: Kind::Value("1"),
    help: "The height that it opens, 1 to 4",
};

/// The rounds that it ends.
const ENDED: Argument = Argument {
    name: "rounds",
    kind: Kind::Value("1"),
    help: "How many rounds it ends, 0 to 4000000000",
};

/// `abft deliver`.
const DELIVER: Subcommand = Subcommand {
    name: "deliver",
    about: "Delivers the frames of standard input to a replica, and prints what it answers",
    usage: Some("abft deliver [OPTIONS] <FRAMES"),
    arguments: &[
        REPLICAS, FAULTS, APP_KIND, WIDTH, TREE, FRAMES, SEED, SEED_FILE, RECIPIENT, SUBMITTED,
        OPENED, ENDED,
    ],
    after_help: LINES,
    own_help: None,
};

/// Whether histories are written, and not lines.
const AS_BYTES: Argument = Argument {
    name: "histories",
    kind: Kind::Flag,
    help: "Writes the histories of the correct replicas, as bytes, in place of the lines",
};

/// `abft simulate`.
const SIMULATE: Subcommand = Subcommand {
    name: "simulate",
    about: "Plays the scenario of standard input on a whole cluster, and prints what its replicas answer",
    usage: Some("abft simulate [OPTIONS] <SCENARIO"),
    arguments: &[SEED, SEED_FILE, AS_BYTES],
    after_help: SCENARIO,
    own_help: Some(OWN_SCENARIO),
};

/// The subcommands, in the order of `abft --help`.
const SUBCOMMANDS: [Subcommand; 8] = [
    SIGN,
    DELIVER,
    SIMULATE,
    RUN_CLUSTER,
    SERVE,
    AUDIT,
    DRAW,
    KEYS,
];

/// The end of the program's help.
fn example(kinds: AppKinds) -> &'static str {
    match kinds {
        AppKinds::Three => EXAMPLE,
        AppKinds::OwnAlone => OWN_EXAMPLE,
    }
}

/// The command of the program, without its subcommands.
fn top_command<'a, A: Opening>(alloc: Global) -> Command<'a>
    ensures { app_of result ≡ at_top (new_app A.words.name) }
{
    let name: &'a str = A::name();
    Command::new(alloc, name)
        .about("A Byzantine fault tolerant replicated ledger")
        .version(VERSION)
        .after_help(example(A::kinds()))
        .subcommand_required(true)
}

/// The command line of the program.
pub(crate) fn abft_command<'a, A: Opening>(alloc: Global) -> Result<Command<'a>, AllocError>
    ensures { IfOk result (λ c. app_of c ≡ abft_app A.words) }
{
    let commands = clap_commands::<A>(alloc, &SUBCOMMANDS)?;
    top_command::<A>(alloc).subcommands(commands)
}
