//! Prints the settings that words of a command line give, as a line, for the tests.
use app_kinds::AnyKind;
use cluster_setup::{
    AuditSettings, ClusterSeed, ClusterSettings, KnownCluster, PublicCluster, Receipt,
    ServeSettings, Settings,
};
use command_line::{GivenKeys, settings};
use std::alloc::{AllocError, Global};

/// The options of a cluster, as a line: the number of replicas, how many of them may lie, the application, bits and
/// leaves of keys, the version of frames, and the seed's last byte.
fn cluster_line(alloc: Global, cluster: &ClusterSeed) -> Result<String, AllocError> {
    let config = cluster.config;
    let params = cluster.params;
    let width = params.width;
    let leaves = params.leaves();
    format!(in alloc;
        "{} {} {:?} {width:?} {leaves} {:?} {}",
        config.replicas, config.faults, config.kind, config.frames, cluster.seed[31]
    )
}

/// The settings of `abft cluster`, as a line.
fn running_line(alloc: Global, running: &ClusterSettings) -> Result<String, AllocError> {
    let cluster = cluster_line(alloc, &running.cluster)?;
    let tx = running.tx.as_bytes();
    let histories = &running.histories;
    let blocks = if running.creates_empty_blocks {
        ""
    } else {
        " sparing"
    };
    let pace = if running.is_steady { " steady" } else { "" };
    format!(in alloc;
        "{cluster} {tx:?} {} {} {:?} {}{blocks}{pace} {histories:?}",
        running.rounds, running.base_ms, running.log, running.stops_at_eof
    )
}

/// The settings of `abft serve`, as a line.
fn serving_line(alloc: Global, serve: &ServeSettings) -> Result<String, AllocError> {
    let running = running_line(alloc, &serve.cluster)?;
    format!(in alloc;
        "{running}, {} {:?} {} {}",
        serve.port, serve.http, serve.sessions, serve.client_entries
    )
}

/// A receipt, as a line.
fn receipt_line(alloc: Global, receipt: &Receipt) -> Result<String, AllocError> {
    let tx = receipt.tx.as_bytes();
    format!(in alloc; "{} {} {tx:?}", receipt.replica.number(), receipt.index)
}

/// The cluster of a public file, as a line: as above, but for the seed.
fn public_line(alloc: Global, cluster: &PublicCluster) -> Result<String, AllocError> {
    let config = cluster.config;
    let params = cluster.params;
    let width = params.width;
    let leaves = params.leaves();
    format!(in alloc;
        "public {} {} {:?} {width:?} {leaves} {:?}",
        config.replicas, config.faults, config.kind, config.frames
    )
}

/// The cluster of histories, as a line.
fn known_line(alloc: Global, cluster: &KnownCluster) -> Result<String, AllocError> {
    match cluster {
        KnownCluster::BySeed(seeded) => cluster_line(alloc, seeded),
        KnownCluster::ByKeys(public) => public_line(alloc, public),
    }
}

/// The settings of `abft audit`, as a line.
fn audit_line(alloc: Global, audit: &AuditSettings) -> Result<String, AllocError> {
    let cluster = known_line(alloc, &audit.cluster)?;
    let Some(receipt) = &audit.receipt else {
        return format!(in alloc; "{cluster}, no receipt");
    };
    let receipt = receipt_line(alloc, receipt)?;
    format!(in alloc; "{cluster}, {receipt}")
}

/// The settings that the words give with what is given, as a line, or what is wrong with them.
fn settings_line(alloc: Global, words: &[&str], given: GivenKeys) -> Result<String, AllocError> {
    match settings::<AnyKind>(alloc, words, given) {
        Ok(Settings::Cluster(running)) => running_line(alloc, &running),
        Ok(Settings::Serve(serve)) => serving_line(alloc, &serve),
        Ok(Settings::Audit(audit)) => audit_line(alloc, &audit),
        Ok(Settings::Draw(draw)) => known_line(alloc, &draw.cluster),
        Ok(Settings::Keys(cluster)) => cluster_line(alloc, &cluster),
        Ok(_) => format!(in alloc; "other settings"),
        Err(fault) => format!(in alloc; "{fault}"),
    }
}

/// Whether the words give these settings with what is given, or have this fault.
fn sets(alloc: Global, words: &[&str], given: GivenKeys, text: &str) -> bool {
    match settings_line(alloc, words, given) {
        Ok(line) => line.as_str() == text,
        Err(_) => false,
    }
}

/// This seed is given, and no cluster.
pub(crate) fn seed_alone(seed: Option<[u8; 32]>) -> GivenKeys {
    GivenKeys {
        seed,
        cluster: None,
    }
}

/// Whether the words of a line give these settings with a seed, or have this fault.
pub(crate) fn is_set_with(alloc: Global, line: &str, seed: Option<[u8; 32]>, text: &str) -> bool {
    is_set_given(alloc, line, seed_alone(seed), text)
}

/// Whether the words of a line give these settings with what is given, or have this fault.
pub(crate) fn is_set_given(alloc: Global, line: &str, given: GivenKeys, text: &str) -> bool {
    let words: Result<Vec<&str>, AllocError> = line.split(' ').collect(alloc);
    match words {
        Ok(words) => sets(alloc, &words, given, text),
        Err(_) => false,
    }
}

/// Whether the words of a line give these settings, or have this fault.
pub(crate) fn is_set_by(alloc: Global, line: &str, text: &str) -> bool {
    is_set_with(alloc, line, None, text)
}
