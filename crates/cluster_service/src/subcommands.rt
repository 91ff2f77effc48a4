//! `abft cluster` and `abft serve`: runs a cluster, and writes its lines.
ghost use Rattle.std.specs.Prelude.{◌≡◌, length, option_map, IfErr, IfOk};
ghost use Rattle.cluster_setup.specs.Keys.{ring_of};
ghost use Rattle.cluster_service.specs.HistoriesFiles.{file_bytes};
ghost use Rattle.cluster_service.specs.Reporting.{AreTaken, Reports, ReportsEnd, ReportsSome, WritesSuch};
ghost use Rattle.cluster_service.specs.RunFaults.{EndsCluster, IsReportFault, IsRunFault};
ghost use Rattle.cluster_service.specs.Services.{IsRunOf, services_at};

use crate::final_histories::FinalHistories;
use crate::ports::Listeners;
use crate::running::{EndedCluster, run_cluster};
use crate::saving::{HistoriesFile, save_histories};
use crate::servers::EndedServices;
use crate::serving::{EndedServer, serve_cluster};
use crate::stop_at_end;
use crate::writing::write_lines;
use abci::Application;
use app_states::Opening;
use byte_streams::ProgramFault;
use cluster_reports::SharedStatus;
use cluster_setup::{ClusterSettings, ServeSettings};
use cluster_workers::{EndedRun, Stop};
use std::alloc::Global;
use std::io::{Read, Write};
use std::net::{Net, TcpListener, TcpStream};
use std::random::RandomSource;
use std::sync::{Arc, Wait};
use std::thread::Threads;
use std::time::Clock;

/// What the operator of a cluster has: the status, which a reporter writes to him, and the input whose end asks the cluster to stop, if the
/// settings say so.
pub struct Operator<'a, I> {
    pub status: &'a SharedStatus,
    pub input: I,
}

/// What can ask a cluster to stop: nothing or, if the settings say so, the end of the input.
fn new_stop<R, I>(
    rt: &R,
    alloc: Global,
    settings: &ClusterSettings,
    input: I,
) -> Result<Arc<Stop>, ProgramFault>
where
    R: Clock + Copy + Send + Threads + 'static,
    I: Read + Drop + Send + 'static,
    ensures { IfErr result IsRunFault }
{
    let stop = Arc::new(alloc, Stop::new())?;
    if settings.stops_at_eof {
        stop_at_end(rt, input, Arc::try_clone(&stop)?)?;
    }
    Ok(stop)
}

/// Writes a line for each replica, and what the audit of their histories finds. Then, whatever became of the lines, writes the histories
/// to the file, if there is one. Returns the exit status. If both fail, the fault is that of the file, which lacks histories.
fn report<A: Opening, S: RandomSource, W: Write, H: Write>(
    source: &S,
    alloc: Global,
    settings: &ClusterSettings,
    left: &FinalHistories,
    writer: &mut W,
    file: &mut Option<HistoriesFile<H>>,
) -> Result<u8, ProgramFault>
    requires each { length left.now.heights.items ≡ settings.now.cluster.config.replicas }
    requires taken { AreTaken A.meaning settings.now.cluster.config left.now.ring 0 left.now.histories.items left.now.heights.items }
    requires ring { left.now.ring ≡ ring_of settings.now.cluster }
    ensures reports { WritesSuch result (Reports A.meaning settings.now) (λ _. ReportsEnd A.meaning settings.now)
        (W.contents writer.old) (W.contents writer.new) (file_bytes file.old) (file_bytes file.new) }
    ensures fault { IfErr result (IsReportFault file.old) }
{
    let written = write_lines::<A, S, W>(source, alloc, &settings.cluster.config, left, writer);
    save_histories(alloc, &left.histories, file)?;
    written
}

/// What `abft cluster` ends with: the exit status, and what ran.
pub struct ClusterOutcome<A: Application> {
    pub status: u8,
    pub run: EndedRun<A>,
}

/// `abft cluster`: runs a cluster, and writes a line for each replica with the number of blocks that it committed, and then what the
/// audit of their histories finds. Then, whatever became of the lines, it writes the histories to the file, if there is one. How it
/// stands is stored in the operator's status. The exit status is 1 if the audit finds a fault.
pub fn cluster<A, R, I, W: Write, H: Write>(
    rt: &R,
    alloc: Global,
    settings: &ClusterSettings,
    operator: Operator<'_, I>,
    writer: &mut W,
    file: &mut Option<HistoriesFile<H>>,
) -> Result<ClusterOutcome<A>, ProgramFault>
where
    A: Opening + Send,
    R: Clock + Copy + RandomSource + Send + Sync + Threads + Wait + 'static,
    I: Read + Drop + Send + 'static,
    ensures reports { WritesSuch result (λ outcome. Reports A.meaning settings.now outcome.status) (ReportsSome A.meaning settings.now)
        (W.contents writer.old) (W.contents writer.new) (file_bytes file.old) (file_bytes file.new) }
    // What was handed to threads to run is what the settings say.
    ensures run { IfOk result (λ outcome. IsRunOf A.meaning settings.now outcome.run) }
    // A cluster that isn't run to its end writes nothing. After that it ends by its audit, whatever that finds, unless memory,
    // random bytes, standard output or the file is refused.
    ensures fault { IfErr result (EndsCluster file.old file.new (W.contents writer.old) (W.contents writer.new)) }
{
    let Operator { status, input } = operator;
    let stop = new_stop(rt, alloc, settings, input)?;
    let left = run_cluster::<A, R>(rt, alloc, settings, status, &stop)?;
    let EndedCluster { histories, run } = left;
    let ended = report::<A, R, W, H>(rt, alloc, settings, &histories, writer, file)?;
    Ok(ClusterOutcome { status: ended, run })
}

/// What `abft serve` ends with: the exit status, what ran, and how clients were served.
pub struct ServerOutcome<A: Application> {
    pub status: u8,
    pub run: EndedRun<A>,
    pub services: EndedServices<A>,
}

/// `abft serve`, once [`write_ports`](crate::write_ports) has written where it listens: runs a cluster and serves clients in parallel; at
/// the end writes what [`cluster`] writes. The listeners come from [`open_listeners`](crate::open_listeners), so no port is refused here.
pub fn serve<A, R, I, W: Write, H: Write>(
    rt: &R,
    alloc: Global,
    settings: &ServeSettings,
    listeners: Listeners,
    operator: Operator<'_, I>,
    writer: &mut W,
    file: &mut Option<HistoriesFile<H>>,
) -> Result<ServerOutcome<A>, ProgramFault>
where
    A: Opening + Send,
    R: Clock
        + Copy
        + Net<Listener = TcpListener, Stream = TcpStream>
        + RandomSource
        + Send
        + Sync
        + Threads
        + Wait
        + 'static,
    I: Read + Drop + Send + 'static,
    ensures reports { WritesSuch result (λ outcome. Reports A.meaning settings.now.cluster outcome.status)
        (ReportsSome A.meaning settings.now.cluster)
        (W.contents writer.old) (W.contents writer.new) (file_bytes file.old) (file_bytes file.new) }
    // What was handed to threads to run, and to serve clients of that cluster at the ports of the listeners, is what the settings say.
    ensures run { IfOk result (λ outcome. IsRunOf A.meaning settings.now.cluster outcome.run) }
    ensures services { IfOk result (λ outcome. outcome.services
        ≡ services_at settings.now outcome.run.cluster listeners.sessions.port (option_map (λ h. h.port) listeners.http)) }
    // A server that isn't run to its end writes nothing but the ports that were written before.
    ensures fault { IfErr result (EndsCluster file.old file.new (W.contents writer.old) (W.contents writer.new)) }
{
    let Operator { status, input } = operator;
    let stop = new_stop(rt, alloc, &settings.cluster, input)?;
    let left = serve_cluster::<A, R>(rt, alloc, settings, listeners, status, &stop)?;
    let EndedServer {
        histories,
        run,
        services,
    } = left;
    let ended = report::<A, R, W, H>(rt, alloc, &settings.cluster, &histories, writer, file)?;
    Ok(ServerOutcome {
        status: ended,
        run,
        services,
    })
}
