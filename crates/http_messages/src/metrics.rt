//! The metrics of replicas, in Prometheus' text format 0.0.4.
ghost use Rattle.std.specs.Prelude.{◌≡◌, ◌++◌, IfOk, OnOk};
ghost use Rattle.std.specs.String.{string_bytes};
ghost use Rattle.std.specs.List.{flat_map};
ghost use Rattle.http_messages.specs.Metrics.{cause_name, metric_name, metric_help, metric_kind, metric_value, comment_text, sample_text, metric_text, ignored_text, all_ignored_text, metrics_text};

use crate::frame_counts::FrameCounts;
use ledger_model::{Height, Ignored, ReplicaId};
use std::alloc::{AllocError, Global};

/// The metrics of one replica: what it shows of itself at one moment.
#[derive(Clone, Copy, Debug)]
pub struct ReplicaMetrics {
    pub replica: ReplicaId,
    /// Its open round, 0 before the first.
    pub rounds: u32,
    /// The last height that it committed.
    pub height: Height,
    /// How many one-time signatures its key pair has left.
    pub signatures_left: u32,
    /// How many transactions wait in its pool.
    pub pool_transactions: u64,
    /// How many entries its history has.
    pub history_entries: u64,
    /// The frames among these entries, by its answer.
    pub frames: FrameCounts,
    /// How many frames for it were lost at its full inbox.
    pub frames_lost: u64,
}

/// A metric with one number for each replica.
#[derive(Clone, Copy)]
enum Metric {
    Rounds,
    Height,
    SignaturesLeft,
    PoolTransactions,
    HistoryEntries,
    FramesLost,
    FramesAccepted,
}

impl Metric {
    /// Its name.
    fn name(self) -> &'static str
        ensures { result.now ≡ metric_name self }
    {
        match self {
            Metric::Rounds => "abft_rounds",
            Metric::Height => "abft_height",
            Metric::SignaturesLeft => "abft_signatures_left",
            Metric::PoolTransactions => "abft_pool_transactions",
            Metric::HistoryEntries => "abft_history_entries",
            Metric::FramesLost => "abft_frames_lost_total",
            Metric::FramesAccepted => "abft_frames_accepted_total",
        }
    }

    /// What it is, in words.
    fn help(self) -> &'static str
        ensures { result.now ≡ metric_help self }
    {
        match self {
            Metric::Rounds => "The open round of the replica.",
            Metric::Height => "The last height that the replica committed.",
            Metric::SignaturesLeft => "One-time signatures that its key pair has left.",
            Metric::PoolTransactions => "Transactions that wait for a block.",
            Metric::HistoryEntries => "Entries of the history.",
            Metric::FramesLost => "Frames that a full inbox lost.",
            Metric::FramesAccepted => "Frames that the replica accepted.",
        }
    }

    /// A gauge is a number as it is now, a counter only grows.
    fn kind(self) -> &'static str
        ensures { result.now ≡ metric_kind self }
    {
        match self {
            Metric::FramesLost | Metric::FramesAccepted => "counter",
            _ => "gauge",
        }
    }

    /// The value of the metric for a replica.
    fn value_of(self, of: &ReplicaMetrics) -> u64
        ensures { result ≡ metric_value self of.now }
    {
        match self {
            Metric::Rounds => u64::from(of.rounds),
            Metric::Height => u64::from(of.height.number()),
            Metric::SignaturesLeft => u64::from(of.signatures_left),
            Metric::PoolTransactions => of.pool_transactions,
            Metric::HistoryEntries => of.history_entries,
            Metric::FramesLost => of.frames_lost,
            Metric::FramesAccepted => of.frames.accepted,
        }
    }
}

/// All metrics with one number for each replica.
const METRICS: [Metric; 7] = [
    Metric::Rounds,
    Metric::Height,
    Metric::SignaturesLeft,
    Metric::PoolTransactions,
    Metric::HistoryEntries,
    Metric::FramesLost,
    Metric::FramesAccepted,
];

/// All causes, in the order of their numbers.
const CAUSES: [Ignored; 11] = [
    Ignored::Malformed,
    Ignored::Signer,
    Ignored::NoRow,
    Ignored::WrongRound,
    Ignored::WrongPhase,
    Ignored::NotOwner,
    Ignored::Repeated,
    Ignored::BadSignature,
    Ignored::BadProof,
    Ignored::TableFull,
    Ignored::NotMine,
];

/// The name of a cause: its text without its number.
fn cause_name(cause: Ignored) -> &'static str
    ensures { result.now ≡ cause_name cause }
{
    let Some((_, name)) = cause.text().split_once(' ') else {
        unreachable!();
    };
    name
}

/// Appends the lines that say what a metric is.
#[tactic(auto, unfolding(crate::specs::Metrics::comment_text))]
fn add_head(out: &mut String, name: &str, help: &str, kind: &str) -> Result<(), AllocError>
    ensures { OnOk result (string_bytes out.new ≡ string_bytes out.old ++ comment_text name.now help.now kind.now) }
{
    write!(out, "# HELP {name} {help}\n# TYPE {name} {kind}\n")
}

/// Appends the line of a metric for a replica.
#[tactic(auto, unfolding(crate::specs::Metrics::sample_text))]
fn add_sample(out: &mut String, metric: Metric, of: &ReplicaMetrics) -> Result<(), AllocError>
    ensures { OnOk result (string_bytes out.new ≡ string_bytes out.old ++ sample_text metric of.now) }
{
    let name = metric.name();
    let number = of.replica.number();
    let value = metric.value_of(of);
    write!(out, "{name}{{replica=\"{number}\"}} {value}\n")
}

/// Appends the lines of a metric for all replicas.
fn add_metric(
    out: &mut String,
    metric: Metric,
    replicas: &[ReplicaMetrics],
) -> Result<(), AllocError>
    ensures { OnOk result (string_bytes out.new ≡ string_bytes out.old ++ metric_text replicas.now metric) }
{
    add_head(out, metric.name(), metric.help(), metric.kind())?;
    for of in replicas {
        add_sample(out, metric, of)?;
    }
    Ok(())
}

/// Appends the lines of metrics, one after another.
fn add_metrics(
    out: &mut String,
    metrics: &[Metric],
    replicas: &[ReplicaMetrics],
) -> Result<(), AllocError>
    ensures { OnOk result (string_bytes out.new ≡ string_bytes out.old ++ flat_map (metric_text replicas.now) metrics.now) }
{
    for metric in metrics {
        add_metric(out, *metric, replicas)?;
    }
    Ok(())
}

/// Appends the line of the frames that a replica ignored for a cause.
#[tactic(auto, unfolding(crate::specs::Metrics::ignored_text))]
fn add_ignored_for(out: &mut String, of: &ReplicaMetrics, cause: Ignored) -> Result<(), AllocError>
    ensures { OnOk result (string_bytes out.new ≡ string_bytes out.old ++ ignored_text of.now cause) }
{
    let replica = of.replica.number();
    let cause_name = cause_name(cause);
    let value = of.frames.ignored_for(cause);
    write!(
        out,
        "abft_frames_ignored_total{{replica=\"{replica}\",cause=\"{cause_name}\"}} {value}\n"
    )
}

/// Appends the lines of the frames that a replica ignored, for these causes.
fn add_ignored(out: &mut String, of: &ReplicaMetrics, causes: &[Ignored]) -> Result<(), AllocError>
    ensures { OnOk result (string_bytes out.new ≡ string_bytes out.old ++ flat_map (ignored_text of.now) causes.now) }
{
    for cause in causes {
        add_ignored_for(out, of, *cause)?;
    }
    Ok(())
}

/// Appends the lines of the metric of ignored frames, for all replicas.
fn add_all_ignored(out: &mut String, replicas: &[ReplicaMetrics]) -> Result<(), AllocError>
    ensures { OnOk result (string_bytes out.new ≡ string_bytes out.old ++ all_ignored_text replicas.now) }
{
    add_head(
        out,
        "abft_frames_ignored_total",
        "Frames that the replica ignored, by the first cause that fits.",
        "counter",
    )?;
    for of in replicas {
        add_ignored(out, of, &CAUSES)?;
    }
    Ok(())
}

/// The metrics of these replicas.
#[tactic(auto, unfolding(crate::specs::Metrics::metrics_text))]
pub(crate) fn metrics(alloc: Global, replicas: &[ReplicaMetrics]) -> Result<String, AllocError>
    ensures { IfOk result (λ text. string_bytes text ≡ metrics_text replicas.now) }
{
    let mut text = String::new(alloc);
    add_metrics(&mut text, &METRICS, replicas)?;
    add_all_ignored(&mut text, replicas)?;
    Ok(text)
}
