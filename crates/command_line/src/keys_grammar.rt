//! The grammar of `abft keys`.
use crate::shared_arguments::{
    APP_KIND, DEFAULT_SEED, FAULTS, FRAMES, REPLICAS, SEED_FILE, TREE, WIDTH,
};
use crate::subcommand::{Argument, Kind, Subcommand};

/// The end of `abft keys --help`.
const PUBLIC_FILE: &str = "\
Output: the cluster's public file, TOML, which has no secret: its sizes, and a public key for each replica.
'audit --cluster FILE' and 'draw --cluster FILE' need nothing else of a cluster.

With --seed random --write-seed FILE the keys are new ones. FILE is created, for its owner alone, and gets their seed,
64 hexadecimal digits, before anything is printed. 'serve --seed-file FILE' runs the cluster: give it the same sizes.

Exit status:
  0  the public file was written
  2  a fault of usage
  3  out of memory, a file that can't be read or created, or a failed write";

/// The seed of all keys.
const SEED_OR_NEW: Argument = Argument {
    name: "seed",
    kind: Kind::Value(DEFAULT_SEED),
    help: "The seed of all keys, 64 hexadecimal digits, which every user of the machine can read, by ps; or random: a new one, for --write-seed",
};

/// The file to which a random seed is written.
const WRITE_SEED: Argument = Argument {
    name: "write-seed",
    kind: Kind::Optional,
    help: "The file to create for the seed of --seed random; it must not be there yet",
};

/// `abft keys`.
pub(crate) const KEYS: Subcommand = Subcommand {
    name: "keys",
    about: "Prints the public file of a cluster, which an auditor needs in place of its seed",
    usage: None,
    arguments: &[
        REPLICAS,
        FAULTS,
        APP_KIND,
        WIDTH,
        TREE,
        FRAMES,
        SEED_OR_NEW,
        SEED_FILE,
        WRITE_SEED,
    ],
    after_help: PUBLIC_FILE,
    own_help: None,
};
