//! Clusters that run in threads of this process and serve clients at ports of this machine.
ghost use Rattle.std.specs.Prelude.{◌≡◌, ◌+◌, ◌<◌, ◌≤◌, ℕ, Some, option_map, slice_get, vec_len, IfErr, IfNone, IfOk, IfSome};
ghost use Rattle.cluster_setup.specs.Keys.{ring_of};
ghost use Rattle.commit_board.specs.Seats.{new_reader};
ghost use Rattle.cluster_service.specs.Reporting.{AreTaken};
ghost use Rattle.cluster_service.specs.RunFaults.{IsRunFault};
ghost use Rattle.cluster_service.specs.Services.{IsRunOf, services_at};
ghost use denote.Param.Send.{IsSend, IsSync};

use crate::budgets::new_budgets;
use crate::door::Door;
use crate::final_histories::{FinalHistories, take_all};
use crate::listening::seats_of;
use crate::ports::{Listeners, PortListener};
use crate::protocol::Protocol;
use crate::replicas::{NewReplicas, new_replicas};
use crate::running::{PreparedRun, end_of, new_gate, work_plan_of};
use crate::servers::{EndedServices, Server, ServerEnd, Servers, http_server};
use abci::Application;
use app_states::Opening;
use byte_streams::ProgramFault;
use cluster_reports::{Notice, ReportingGate, SharedStatus};
use cluster_setup::ServeSettings;
use cluster_workers::{EndedRun, RunningCluster, Stop};
use commit_board::ReaderSeat;
use std::alloc::Global;
use std::net::{Net, TcpListener, TcpStream};
use std::random::RandomSource;
use std::sync::Wait;
use std::thread;
use std::thread::Threads;
use std::time::Clock;

/// The most connections of HTTP that are served at once. More wait in the listener's queue.
const HTTP_SEATS: u32 = 1024;

/// What ran, and how clients were served meanwhile.
struct Served<A: Application> {
    run: EndedRun<A>,
    services: EndedServices<A>,
}

/// Ends a server, if there is one, and waits until it has ended.
fn end_if_any<R: Clock + Net<Listener = TcpListener, Stream = TcpStream> + Wait>(
    rt: &R,
    server: Option<ServerEnd<'_>>,
) {
    if let Some(server) = server {
        server.door.request_end();
        server.wait(rt, true);
    }
}

/// Runs the workers of a cluster, and then waits for the end of the sessions, if that is watched: because something is to be done then, or
/// because the cluster may be asked to stop.
fn run_workers<A, R>(
    rt: &R,
    prepared: PreparedRun<'_, A, R>,
    sessions: ServerEnd<'_>,
    is_watched: bool,
) -> Result<EndedRun<A>, ProgramFault>
where
    A: Application + Send,
    R: Clock + Net<Listener = TcpListener, Stream = TcpStream> + Threads + Wait + Sync,
    ensures run { IfOk result (λ ran. ran ≡ prepared.entry) }
    ensures fault { IfErr result IsRunFault }
{
    let (settings, gate, stop) = (prepared.settings, prepared.gate, prepared.stop);
    let done = prepared.run(rt);
    if done.is_ok() {
        gate.tell(end_of(stop, Notice::ServesOn));
    }
    sessions.wait(rt, is_watched || settings.stops_at_eof);
    if done.is_ok() {
        gate.wait_for_end();
    }
    done
}

/// Runs the workers of a cluster in parallel with its servers. Returns once all have ended: HTTP ends after the workers and the sessions.
fn run_beside<'a, A, R>(
    rt: &R,
    alloc: Global,
    prepared: PreparedRun<'_, A, R>,
    servers: Servers<'a, '_, A, R>,
) -> Result<Served<A>, ProgramFault>
where
    A: Application + Send,
    R: Clock + Net<Listener = TcpListener, Stream = TcpStream> + Threads + Wait + Sync,
    ensures run { IfOk result (λ served. served.run ≡ prepared.entry) }
    ensures services { IfOk result (λ served. served.services ≡ record { sessions = servers.entry.sessions; http = servers.entry.http }) }
    ensures fault { IfErr result IsRunFault }
{
    let services = servers.ended();
    let Servers { sessions, http } = servers;
    let first = sessions.end();
    let last = match &http {
        Some(http) => Some(http.end()),
        None => None,
    };
    let done = thread::scope(
        thread::scope_env(),
        rt,
        move |scope| -> Result<EndedRun<A>, ProgramFault>
            requires app { IsSend A.row }
            ensures run { IfOk result (λ ran. ran ≡ prepared.entry) }
            ensures fault { IfErr result IsRunFault }
        {
            if let Some(http) = http {
                let door = http.end().door;
                if scope.spawn(move || door.watch(rt)).is_err() {
                    return Err(ProgramFault::NoThread);
                }
                if scope.spawn(move || http.listen(rt, alloc)).is_err() {
                    door.request_end();
                    return Err(ProgramFault::NoThread);
                }
            }
            if scope.spawn(move || sessions.listen(rt, alloc)).is_err() {
                end_if_any(rt, last);
                return Err(ProgramFault::NoThread);
            }
            let done = run_workers(rt, prepared, first, last.is_some());
            end_if_any(rt, last);
            done
        },
    );
    let run = done?;
    Ok(Served { run, services })
}

/// Runs the workers of a cluster in parallel with a server of sessions, which has the first readers of the board, and with one of HTTP,
/// which has the others. All clients share the given number of entries of each history.
fn serve_beside<A, R>(
    rt: &R,
    alloc: Global,
    settings: &ServeSettings,
    prepared: PreparedRun<'_, A, R>,
    mut readers: Vec<ReaderSeat>,
    listeners: Listeners,
) -> Result<Served<A>, ProgramFault>
where
    A: Application + Send,
    R: Clock + Net<Listener = TcpListener, Stream = TcpStream> + Threads + Wait + Sync,
    requires none { IfNone listeners.http (vec_len readers ≡ settings.now.sessions) }
    requires http { IfSome listeners.http (λ _. vec_len readers ≡ settings.now.sessions + 1024) }
    requires readers { (k : ℕ) → k < vec_len readers → slice_get readers.items k ≡ Some (new_reader prepared.cluster.board) }
    requires replicas { settings.now.cluster.cluster.config.replicas ≡ prepared.cluster.replicas }
    ensures run { IfOk result (λ served. served.run ≡ prepared.entry) }
    ensures services { IfOk result (λ served. served.services
        ≡ services_at settings.now prepared.entry.cluster listeners.sessions.port (option_map (λ h. h.port) listeners.http)) }
    ensures fault { IfErr result IsRunFault }
{
    let cluster = prepared.cluster;
    let replicas = settings.cluster.cluster.config.replicas;
    let budgets = new_budgets(alloc, replicas, settings.client_entries)?;
    let others = readers.split_off(settings.sessions as usize)?;
    // Asked once the rounds are over: HTTP then ends, and so do waits of both servers.
    let over = Stop::new();
    let door = Door::new(alloc, Protocol::Sessions, readers.len(), prepared.stop)?;
    let http_door = Door::new(alloc, Protocol::Http, others.len(), &over)?;
    let seats = seats_of(rt, alloc, cluster, &budgets, readers, &over)?;
    let http_seats = seats_of(rt, alloc, cluster, &budgets, others, &over)?;
    let Listeners { sessions, http } = listeners;
    let servers = Servers {
        sessions: Server::new(sessions, seats, cluster, &budgets, &door),
        http: http_server(http, http_seats, cluster, &budgets, &http_door),
    };
    run_beside(rt, alloc, prepared, servers)
}

/// How many seats of the board a server needs.
fn seat_count(sessions: u32, http: &Option<PortListener>) -> u32
    requires { sessions ≤ 1000 }
    ensures none { IfNone http.now (result ≡ sessions) }
    ensures some { IfSome http.now (λ _. result ≡ sessions + 1024) }
{
    match http {
        Some(_) => sessions + HTTP_SEATS,
        None => sessions,
    }
}

/// A server that has run to its end: what its replicas have, what ran, and how its clients were served.
pub struct EndedServer<A: Application> {
    pub histories: FinalHistories,
    pub run: EndedRun<A>,
    pub services: EndedServices<A>,
}

/// Makes a cluster, runs it and serves its clients. Returns what its replicas have at the end.
fn serve_through<'a, A, R>(
    rt: &R,
    alloc: Global,
    settings: &'a ServeSettings,
    gate: &'a ReportingGate<'a, R>,
    listeners: Listeners,
    stop: &'a Stop,
) -> Result<EndedServer<A>, ProgramFault>
where
    A: Opening + Send,
    R: Clock
        + RandomSource
        + Threads
        + Wait
        + Sync
        + Net<Listener = TcpListener, Stream = TcpStream>,
    ensures each { IfOk result (λ end. vec_len end.histories.heights ≡ settings.now.cluster.cluster.config.replicas) }
    ensures taken { IfOk result (λ end. AreTaken A.meaning settings.now.cluster.cluster.config end.histories.ring 0
        end.histories.histories.items end.histories.heights.items) }
    ensures ring { IfOk result (λ end. end.histories.ring ≡ ring_of settings.now.cluster.cluster) }
    ensures run { IfOk result (λ end. IsRunOf A.meaning settings.now.cluster end.run) }
    ensures services { IfOk result (λ end. end.services
        ≡ services_at settings.now end.run.cluster listeners.sessions.port (option_map (λ h. h.port) listeners.http)) }
    ensures fault { IfErr result IsRunFault }
{
    let run = &settings.cluster;
    let NewReplicas { states, ring } = new_replicas(rt, alloc, &run.cluster, &run.tx)?;
    let (cluster, workers, readers) = RunningCluster::new(
        alloc,
        &run.cluster.config,
        states,
        work_plan_of(run),
        seat_count(settings.sessions, &listeners.http),
    )?;
    let prepared = PreparedRun {
        settings: run,
        cluster: &cluster,
        workers,
        gate: &*gate,
        stop: &*stop,
    };
    let Served { run, services } = serve_beside(rt, alloc, settings, prepared, readers, listeners)?;
    let histories = take_all(rt, alloc, &cluster, ring)?;
    Ok(EndedServer {
        histories,
        run,
        services,
    })
}

/// Like [`run_cluster`](crate::run_cluster), and serves the clients of the listeners. Returns when the rounds are over and as many
/// connections as the settings say have ended, or when the cluster was asked to stop. Closes the listener after the last connection. Until
/// then it serves HTTP, too, if there is a listener for it.
pub fn serve_cluster<A, R>(
    rt: &R,
    alloc: Global,
    settings: &ServeSettings,
    listeners: Listeners,
    status: &SharedStatus,
    stop: &Stop,
) -> Result<EndedServer<A>, ProgramFault>
where
    A: Opening + Send,
    R: Clock
        + Net<Listener = TcpListener, Stream = TcpStream>
        + RandomSource
        + Sync
        + Threads
        + Wait,
    ensures each { IfOk result (λ end. vec_len end.histories.heights ≡ settings.now.cluster.cluster.config.replicas) }
    ensures taken { IfOk result (λ end. AreTaken A.meaning settings.now.cluster.cluster.config end.histories.ring 0
        end.histories.histories.items end.histories.heights.items) }
    ensures ring { IfOk result (λ end. end.histories.ring ≡ ring_of settings.now.cluster.cluster) }
    // What was handed to threads to run is what the settings say.
    ensures run { IfOk result (λ end. IsRunOf A.meaning settings.now.cluster end.run) }
    // What was handed to threads to serve clients of that cluster, at the ports of the listeners, is what the settings say.
    ensures services { IfOk result (λ end. end.services
        ≡ services_at settings.now end.run.cluster listeners.sessions.port (option_map (λ h. h.port) listeners.http)) }
    ensures fault { IfErr result IsRunFault }
{
    let gate = new_gate(rt, &settings.cluster, status, true);
    serve_through(rt, alloc, settings, &gate, listeners, stop)
}
