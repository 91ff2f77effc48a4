//! The grammar of `abft audit`.
use crate::shared_arguments::{
    APP_KIND, CLUSTER_FILE, FAULTS, FRAMES, REPLICAS, SEED, SEED_FILE, TREE, WIDTH,
};
use crate::subcommand::{Argument, Kind, Subcommand};

/// The end of `abft audit --help`.
const FINDINGS: &str = "\
Input: the histories of N-t replicas or more, as bytes, one after another. 'simulate --histories' prints such bytes,
and 'cluster --histories FILE' writes them. The options are those of the cluster, or --cluster names its public file.

Lines, if the histories are those of one ledger:
  ledger C  the ledger has C blocks
  H BATCH   its block at height H, one line for each

Otherwise one line:
  fault 1 Count          fewer than N-t histories, two of one replica, or one of a replica that the cluster doesn't have
  fault 2 NotReplay R I  entry I of R's history has a reply that the protocol doesn't allow there, or sends what R didn't sign
  fault 3 Unsent A I S   replica A accepted, as entry I of its history, a statement of S that S's history doesn't send
  bad history            the input is not spelled as histories, or those of version 2 need --frames 2
After a fault, standard error has one more sentence about it.

With --receipt there is one more line after a ledger. A receipt is what a client holds: the replica that took its
transaction, the index of the entry in that replica's history, and the transaction.
  receipt ok     that entry took that transaction
  receipt wrong  it did not, or there is no such entry

Exit status:
  0  the histories are those of one ledger, and the receipt, if there is one, holds
  1  'fault', 'bad history' or 'receipt wrong' was printed
  2  a fault of usage
  3  out of memory, a file that can't be read, or a failed read or write";

/// A receipt to look for.
const RECEIPT: Argument = Argument {
    name: "receipt",
    kind: Kind::Optional,
    help: "A receipt to look for, R:I:TX: the replica, the index in its history, and the transaction",
};

/// `abft audit`.
pub(crate) const AUDIT: Subcommand = Subcommand {
    name: "audit",
    about: "Audits the histories of standard input, and prints their one ledger, or the first fault",
    usage: Some("abft audit [OPTIONS] <HISTORIES"),
    arguments: &[
        REPLICAS,
        FAULTS,
        APP_KIND,
        WIDTH,
        TREE,
        FRAMES,
        SEED,
        SEED_FILE,
        CLUSTER_FILE,
        RECEIPT,
    ],
    after_help: FINDINGS,
    own_help: None,
};
