//! The grammar of `abft cluster` and `abft serve`, the subcommands that run a whole cluster.
use crate::shared_arguments::{
    APP_KIND, BASE_MS, FAULTS, FIRST_TX, FRAMES, HISTORIES, LOG, NO_EMPTY_BLOCKS, QUIET, REPLICAS,
    ROUNDS, SEED_FILE, SEED_OR_RANDOM, STEADY, STOP_EARLY, TREE, WIDTH,
};
use crate::subcommand::{Argument, Kind, Subcommand};

/// The end of `abft cluster --help`.
const COMMITS: &str = "\
Lines at the end, one for each replica:
  commits R C  replica R committed C blocks

Then the lines of an audit over the histories of all replicas, as 'audit --help' says:
  ledger C     the histories are those of one ledger of C blocks
  H BATCH      its block at height H, one line for each

With --histories FILE the histories are written to FILE, for 'audit <FILE' with the options of the cluster.
Standard error shows progress; --log sets how much.

Exit status:
  0  the rounds are over, or the cluster was asked to stop, and the audit found a ledger
  1  the audit found a fault
  2  a fault of usage
  3  out of memory, a thread that can't be made, a file that can't be read or written, or a failed write";

/// The end of `abft serve --help`.
const LISTENING: &str = "\
The first line, and with --http the second:
  listening PORT  clients can connect to this port
  http PORT       this port answers HTTP requests

At the end, one line for each replica:
  commits R C  replica R committed C blocks

Then the lines of an audit over the histories of all replicas, as 'audit --help' says:
  ledger C     the histories are those of one ledger of C blocks
  H BATCH      its block at height H, one line for each

The server ends when the rounds are over and as many connections as --sessions says have opened and closed,
or, with --stop-at-eof, when standard input ends.
With --histories FILE the histories are written to FILE, for 'audit <FILE' with the options of the cluster.
Standard error shows progress; --log sets how much.
docs/OPERATING.md has the rest.

Exit status:
  0  the rounds are over, or the cluster was asked to stop, and the audit found a ledger
  1  the audit found a fault
  2  a fault of usage
  3  out of memory, a thread that can't be made, a port that can't be listened at, a file that can't be read or
     written, or a failed write";

/// `abft cluster`.
pub(crate) const RUN_CLUSTER: Subcommand = Subcommand {
    name: "cluster",
    about: "Runs a whole cluster in one process, a thread for each replica, and prints what each committed",
    usage: None,
    arguments: &[
        REPLICAS,
        FAULTS,
        APP_KIND,
        WIDTH,
        TREE,
        FRAMES,
        SEED_OR_RANDOM,
        SEED_FILE,
        FIRST_TX,
        ROUNDS,
        BASE_MS,
        LOG,
        QUIET,
        STOP_EARLY,
        NO_EMPTY_BLOCKS,
        STEADY,
        HISTORIES,
    ],
    after_help: COMMITS,
    own_help: None,
};

/// The port of the sessions.
const PORT: Argument = Argument {
    name: "port",
    kind: Kind::Value("0"),
    help: "The port to listen at, 0 to 65535; 0 for one that is free",
};

/// The port of HTTP.
const HTTP_PORT: Argument = Argument {
    name: "http",
    kind: Kind::Optional,
    help: "The port for HTTP requests, 0 to 65535; 0 for one that is free; without it there is no HTTP",
};

/// The connections that are taken.
const SESSIONS: Argument = Argument {
    name: "sessions",
    kind: Kind::Value("1"),
    help: "How many connections are taken before further ones are refused, 1 to 1000",
};

/// The entries that clients may use.
const ENTRIES: Argument = Argument {
    name: "client-entries",
    kind: Kind::Value("32768"),
    help: "How many entries of each replica's history its clients may use, 0 to 65536",
};

/// `abft serve`.
pub(crate) const SERVE: Subcommand = Subcommand {
    name: "serve",
    about: "Runs a whole cluster in one process, and listens on 127.0.0.1 for clients of its replicas",
    usage: None,
    arguments: &[
        REPLICAS,
        FAULTS,
        APP_KIND,
        WIDTH,
        TREE,
        FRAMES,
        SEED_OR_RANDOM,
        SEED_FILE,
        FIRST_TX,
        ROUNDS,
        BASE_MS,
        LOG,
        QUIET,
        STOP_EARLY,
        NO_EMPTY_BLOCKS,
        STEADY,
        HISTORIES,
        PORT,
        HTTP_PORT,
        SESSIONS,
        ENTRIES,
    ],
    after_help: LISTENING,
    own_help: None,
};
