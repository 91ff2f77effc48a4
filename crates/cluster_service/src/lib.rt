//! Whole clusters that run in this process, and their clients.
//!
//! [`run_cluster`] and [`serve_cluster`] run under `abft cluster` and `abft serve`. They make the replicas, run a worker for each in a
//! thread, by the machine's clock, and report the state of the cluster to its operator (crate `cluster_reports`). [`LiveTargets`] are the
//! replicas of a cluster for one session: a request is at most one event under the replica's lock, and heights are those of the commit
//! board. Each connection is served in a thread of its own, so a client that disappears or sends no request harms no other session. The
//! clients share a count of the entries of each replica's history that they may use.
//!
//! The caller chooses the type of the replicas' application (`Opening` of crate `app_states`), which answers as the configuration's kind does.
//!
//! What is handed to threads is what the settings say: [`EndedCluster`] and [`EndedServer`] keep which cluster, workers, clock and services threads were
//! given, and their contracts compare that with the settings.
//!
//! `docs/PROMISES.md` lists what is only tested: among others that the workers run concurrently, that a submit, a query or a block is
//! answered by the replica with the number that was asked for, that clients share one count of entries, and what TCP delivers.
#![tactic(auto)]

mod asking;
mod budgets;
mod client_access;
mod deliveries;
mod door;
mod final_histories;
mod frame_counting;
mod lines;
mod listening;
mod live_targets;
mod ports;
mod protocol;
mod replicas;
mod running;
mod saving;
mod seen_states;
mod servers;
mod serving;
mod showing;
mod stopping;
mod subcommands;
mod waiting;
mod writing;

pub use budgets::ClientBudget;
pub use final_histories::FinalHistories;
pub use live_targets::LiveTargets;
pub use ports::{Listeners, PortListener, listen_at, listen_for_http, open_listeners};
pub use protocol::Protocol;
pub use replicas::new_replicas;
pub use running::{EndedCluster, run_cluster};
pub use saving::{HistoriesFile, open_histories};
pub use servers::{EndedService, EndedServices};
pub use serving::{EndedServer, serve_cluster};
pub use stopping::stop_at_end;
pub use subcommands::{ClusterOutcome, Operator, ServerOutcome, cluster, serve};
pub use writing::{write_commits, write_ports};
