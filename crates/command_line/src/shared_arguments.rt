//! The arguments that several subcommands have.
use crate::subcommand::{Argument, Kind};

/// The number of replicas of a cluster.
pub(crate) const REPLICAS: Argument = Argument {
    name: "n",
    kind: Kind::Value("4"),
    help: "How many replicas there are, 4 to 13",
};

/// The number of replicas that may lie.
pub(crate) const FAULTS: Argument = Argument {
    name: "t",
    kind: Kind::Value("1"),
    help: "How many may lie, 1 to 4, with 3t+1 <= n",
};

/// The application.
pub(crate) const APP_KIND: Argument = Argument {
    name: "kind",
    kind: Kind::Choice("1"),
    help: "The application: 1 or kvstore, keys and values; 2 or counter; 3 or purse",
};

/// The width of a digit of a signature.
pub(crate) const WIDTH: Argument = Argument {
    name: "w",
    kind: Kind::Value("4"),
    help: "Bits of a digit of a signature: 4 or 8",
};

/// The height of a signature tree.
pub(crate) const TREE: Argument = Argument {
    name: "tree",
    kind: Kind::Value("5"),
    help: "Height of a signature tree: 5 or 10",
};

/// The version of a cluster's frames.
pub(crate) const FRAMES: Argument = Argument {
    name: "frames",
    kind: Kind::Value("1"),
    help: "The version of the frames, 1 or 2; with 2 a batch has up to 64 transactions, not 16",
};

/// The seed of all keys if the words give none. It is public.
pub(crate) const DEFAULT_SEED: &str =
    "0000000000000000000000000000000000000000000000000000000000000000";

/// The seed of all keys.
pub(crate) const SEED: Argument = Argument {
    name: "seed",
    kind: Kind::Value(DEFAULT_SEED),
    help: "The seed of all keys, 64 hexadecimal digits; every user of the machine can read it, by ps",
};

/// The seed of all keys of a cluster that runs.
pub(crate) const SEED_OR_RANDOM: Argument = Argument {
    name: "seed",
    kind: Kind::Value(DEFAULT_SEED),
    help: "The seed of all keys, 64 hexadecimal digits, which every user of the machine can read, by ps; or random: a new one, shown nowhere",
};

/// The file of the seed, which every subcommand has beside `--seed`.
pub(crate) const SEED_FILE: Argument = Argument {
    name: "seed-file",
    kind: Kind::Optional,
    help: "The file of the seed, in place of --seed: 64 hexadecimal digits, or 32 bytes",
};

/// The public file of a cluster.
pub(crate) const CLUSTER_FILE: Argument = Argument {
    name: "cluster",
    kind: Kind::Optional,
    help: "The public file of the cluster, as 'keys' prints it, in place of --n, --t, --kind, --w, --tree, --frames and the seed",
};

/// The transaction of a run.
pub(crate) const FIRST_TX: Argument = Argument {
    name: "tx",
    kind: Kind::FirstTx,
    help: "The transaction that each pool is given",
};

/// The rounds of a run.
pub(crate) const ROUNDS: Argument = Argument {
    name: "rounds",
    kind: Kind::Value("40"),
    help: "How many rounds each replica ends, 0 to 4000000000",
};

/// The time before a round end of a run.
pub(crate) const BASE_MS: Argument = Argument {
    name: "base-ms",
    kind: Kind::Value("200"),
    help: "Round end R comes this many milliseconds, 1 to 60000, and R more after the one before it",
};

/// How much a run shows of itself.
pub(crate) const LOG: Argument = Argument {
    name: "log",
    kind: Kind::Value("info"),
    help: "What standard error shows, in letters of any case: off, error, warn, info, debug or trace",
};

/// Whether a run is quiet.
pub(crate) const QUIET: Argument = Argument {
    name: "quiet",
    kind: Kind::Flag,
    help: "The same as --log off",
};

/// Whether a run ends when standard input does.
pub(crate) const STOP_EARLY: Argument = Argument {
    name: "stop-at-eof",
    kind: Kind::Flag,
    help: "Stops the cluster, and its listener, when standard input ends",
};

/// Whether a run opens heights for waiting transactions alone.
pub(crate) const NO_EMPTY_BLOCKS: Argument = Argument {
    name: "no-empty-blocks",
    kind: Kind::Flag,
    help: "Opens a height only if a transaction waits for it, or a frame about it",
};

/// Whether the rounds of a run are short again after each block.
pub(crate) const STEADY: Argument = Argument {
    name: "steady",
    kind: Kind::Flag,
    help: "Lets rounds last as at the start again, each time that all replicas have run another block",
};

/// The file to which a run writes its histories.
pub(crate) const HISTORIES: Argument = Argument {
    name: "histories",
    kind: Kind::Optional,
    help: "The file to which the histories are written at the end",
};
