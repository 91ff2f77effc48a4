//! The settings of `abft cluster` and `abft serve`.
ghost use Rattle.std.specs.Prelude.{◌≤◌};

use crate::cluster_seed::ClusterSeed;
use ledger_model::Tx;
use log::LevelFilter;

/// The settings of `abft cluster`: the replicas that run, and for how long.
#[derive(Drop)]
pub struct ClusterSettings {
    pub cluster: ClusterSeed,
    /// The transaction that is submitted to each replica before the first round.
    pub tx: Tx,
    /// The number of rounds that each replica ends.
    pub rounds: u32,
    /// The milliseconds that the first round lasts; each later one lasts a millisecond more.
    pub base_ms: u32,
    /// Whether rounds are short again each time that all replicas have committed another block.
    pub is_steady: bool,
    /// Whether a replica opens a height with an empty pool; if not, only once another replica has sent it a frame of that height.
    pub creates_empty_blocks: bool,
    /// What the operator reads: nothing but a fault (`Off`), also what needs attention (`Warn`), also progress (`Info`), also each
    /// round of each replica (`Debug`).
    pub log: LevelFilter,
    /// Whether the rounds end with standard input.
    pub stops_at_eof: bool,
    /// The file to which the histories are written at the end, if one is named.
    pub histories: Option<String>,
    ghost of_base: { (1 ≤ base_ms) × (base_ms ≤ 60000) },
}

/// The settings of `abft serve`: the cluster that runs, and the connections that it serves.
#[derive(Drop)]
pub struct ServeSettings {
    pub cluster: ClusterSettings,
    /// The port of 127.0.0.1 to listen at; 0 for any free one.
    pub port: u16,
    /// The port of 127.0.0.1 at which HTTP is served, if it is; 0 for any free one.
    pub http: Option<u16>,
    /// The number of connections that are served.
    pub sessions: u32,
    /// The number of entries of each replica's history that clients may use.
    pub client_entries: u32,
    ghost of_sessions: { (1 ≤ sessions) × (sessions ≤ 1000) },
    ghost of_client_entries: { client_entries ≤ 65536 },
}
