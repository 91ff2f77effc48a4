//! Reads a text that describes a cluster.
ghost use Rattle.std.specs.Prelude.{◌≡◌, ◌+◌, ◌≤◌, ◌==◌, length, take, count_by, IfOk, IfErr, MatchResult, Some};
ghost use Rattle.toml.specs.Parse.{parse_document};
ghost use Rattle.toml.specs.View.{table_view};
ghost use Rattle.cluster_files.specs.Descriptions.{Describes, IsClusterTable};
ghost use Rattle.cluster_files.specs.FileFaults.{IsRightOfTable, IsRightOfText};
ghost use Rattle.cluster_setup.specs.declared.public_cluster.PublicCluster.{PublicCluster};
ghost use Rattle.cluster_files.specs.declared.fault.ClusterFileFault.TheVariants.{NoMemory};

use crate::fault::ClusterFileFault;
use crate::key_reading::ring;
use crate::table_reading::{config, params, unknown_name};
use cluster_setup::PublicCluster;
use std::alloc::Global;
use toml::Table;

/// The number of the line, from 1 on, at a place of the text.
fn line_at(text: &str, place: usize) -> usize
    requires { place ≤ length text.now }
    ensures { result ≡ count_by (λ byte. byte == 10) (take place text.now) + 1 }
{
    let before = &text.as_bytes()[..place];
    before.iter().filter(|byte| **byte == b'\n').count() + 1
}

/// The table that the text is.
fn parsed(alloc: Global, text: &str) -> Result<Table, ClusterFileFault>
    ensures some { IfOk result (λ table. parse_document text.now ≡ Some (table_view table)) }
    ensures right { IfErr result (IsRightOfText text.now) }
{
    match toml::table_from_str(alloc, text) {
        Ok(table) => Ok(table),
        Err(error) => match error.span() {
            Some(span) => Err(ClusterFileFault::NotToml(line_at(text, span.start))),
            None => Err(ClusterFileFault::NoMemory),
        },
    }
}

/// The cluster that the table is of.
fn cluster(alloc: Global, table: &Table) -> Result<PublicCluster, ClusterFileFault>
    ensures ok { IfOk result (IsClusterTable (table_view table.now)) }
    ensures right { IfErr result (IsRightOfTable (table_view table.now)) }
{
    if let Some(name) = unknown_name(table) {
        return Err(ClusterFileFault::UnknownName(String::from_str(alloc, name)?));
    }
    let config = config(table)?;
    let params = params(table)?;
    let ring = ring(alloc, table, config.replicas, params)?;
    Ok(PublicCluster {
        config,
        params,
        ring,
    })
}

/// The cluster that a text describes: any TOML of its table (`docs/FORMATS.md`, "A cluster's file"). Of several faults it names one.
pub fn read(alloc: Global, text: &str) -> Result<PublicCluster, ClusterFileFault>
    ensures ok { IfOk result (Describes text.now) }

    // A text of a cluster is read as that cluster: so is what `text_of` writes.
    ensures only { (cluster : PublicCluster) → Describes text.now cluster
        → MatchResult result (λ read. read ≡ cluster) (λ fault. fault ≡ NoMemory) }
    ensures right { IfErr result (IsRightOfText text.now) }
{
    let table = parsed(alloc, text)?;
    cluster(alloc, &table)
}
