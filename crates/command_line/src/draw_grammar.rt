//! The grammar of `abft draw`.
use crate::shared_arguments::{
    APP_KIND, CLUSTER_FILE, FAULTS, FRAMES, REPLICAS, SEED, SEED_FILE, TREE, WIDTH,
};
use crate::subcommand::{Argument, Kind, Subcommand};

/// The end of `abft draw --help`.
const PICTURE: &str = "\
Input: the histories of replicas, as bytes, one after another. 'simulate --histories' prints such bytes, and
'cluster --histories FILE' writes them. The options are those of the cluster, or --cluster names its public file:
histories of version 2 need --frames 2, or a file that says so.
A history is drawn up to its first entry that is not lawful after those before it, or sends what is not signed.

Output: an SVG document, or 'bad history' if the input is not spelled as histories. docs/PICTURES.md says how to read it.

Exit status:
  0  the picture was written
  1  'bad history' was printed, or a history has such an entry, which standard error names
  2  a fault of usage
  3  out of memory, a file that can't be read, or a failed read or write";

/// The height that is drawn.
const HEIGHT: Argument = Argument {
    name: "height",
    kind: Kind::Value("0"),
    help: "The one height to draw, 1 to 4096; 0 for all heights",
};

/// The first round that is drawn.
const FIRST: Argument = Argument {
    name: "first",
    kind: Kind::Value("0"),
    help: "The first round to draw, 0 to 4000000000; 0 is the time before round 1",
};

/// The last round that is drawn.
const LAST: Argument = Argument {
    name: "last",
    kind: Kind::Value("64"),
    help: "The last round to draw, 0 to 4000000000",
};

/// `abft draw`.
pub(crate) const DRAW: Subcommand = Subcommand {
    name: "draw",
    about: "Draws the run of the histories of standard input, as an SVG document",
    usage: Some("abft draw [OPTIONS] <HISTORIES >PICTURE.svg"),
    arguments: &[
        REPLICAS,
        FAULTS,
        APP_KIND,
        WIDTH,
        TREE,
        FRAMES,
        SEED,
        SEED_FILE,
        CLUSTER_FILE,
        HEIGHT,
        FIRST,
        LAST,
    ],
    after_help: PICTURE,
    own_help: None,
};
