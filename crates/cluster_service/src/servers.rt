//! The servers of a running cluster: one of sessions, and one of HTTP, if it is served.
ghost use Rattle.std.specs.Prelude.{◌≡◌, All, option_map, vec_len};
ghost use Rattle.cluster_service.specs.Services.{service_at};

use crate::budgets::ClientBudget;
use crate::door::{Door, LOOK_MS};
use crate::listening::{Seat, listen};
use crate::ports::PortListener;
use crate::protocol::Protocol;
use abci::Application;
use cluster_workers::RunningCluster;
use std::alloc::Global;
use std::marker::Model;
use std::net::{Ipv4Addr, Net, TcpListener, TcpStream};
use std::snapshot::Snapshot;
use std::sync::Wait;
use std::thread;
use std::thread::Threads;
use std::time::{Clock, Duration};

/// How clients of a cluster were served at one port of 127.0.0.1: what contracts see of it.
#[derive(Drop)]
pub struct EndedService<A: Application> {
    port: u16,
    protocol: Protocol,
    cluster: Snapshot<RunningCluster<A>>,
    seats: usize,
    budgets: Snapshot<Vec<ClientBudget>>,
}

impl<A: Application> Model for EndedService<A> {
    ghost use Rattle.cluster_service.specs.Services.{ServiceView};

    ghost Value = { ServiceView };

    ghost view = { λ s. record {
      port = s.port;
      protocol = s.protocol;
      cluster = s.cluster.value;
      seats = s.seats;
      entries = s.budgets.value.items;
    } };
}

/// How the clients of a cluster were served: by sessions, and by HTTP, if there was any.
#[derive(Drop)]
pub struct EndedServices<A: Application> {
    sessions: EndedService<A>,
    http: Option<EndedService<A>>,
}

impl<A: Application> Model for EndedServices<A> {
    ghost use Rattle.cluster_service.specs.Services.{ServicesView};

    ghost Value = { ServicesView };

    ghost view = { λ s. record { sessions = s.sessions; http = s.http } };
}

/// A server at one port: its listener, a seat for each connection, the cluster, the budgets of entries that all clients share, and the door.
/// Contracts see it as the service that it gives.
pub(crate) struct Server<'a, 'b, A: Application, R: Wait> {
    listener: TcpListener,
    port: u16,
    seats: Vec<Seat<'a, A, R>>,
    cluster: &'a RunningCluster<A>,
    budgets: &'a Vec<ClientBudget>,
    door: &'b Door<'b>,
    ghost asked: { All (λ s. s.targets.cluster.now ≡ cluster.now) seats.items },
    ghost shared: { All (λ s. s.targets.budgets.now ≡ budgets.now.items) seats.items },
}

impl<'a, 'b, A: Application, R: Wait> Model for Server<'a, 'b, A, R> {
    ghost use Rattle.std.specs.Prelude.{vec_len};
    ghost use Rattle.cluster_service.specs.Services.{ServiceView};

    ghost Value = { ServiceView };

    ghost view = { λ s. record {
      port = s.port;
      protocol = s.door.now.protocol;
      cluster = s.cluster.now;
      seats = vec_len s.seats;
      entries = s.budgets.now.items;
    } };
}

// An own `Drop` keeps proofs short: an owner drops it by one call. See docs/WORKING.md.
impl<A: Application, R: Wait> Drop for Server<'_, '_, A, R> {
    fn drop(self) {
        let Server {
            listener: _listener,
            port: _port,
            seats: _seats,
            cluster: _cluster,
            budgets: _budgets,
            door: _door,
        } = self;
    }
}

impl<'a, 'b, A: Application, R: Wait> Server<'a, 'b, A, R> {
    ghost use Rattle.std.specs.Prelude.{◌≡◌, All, vec_len};
    ghost use Rattle.cluster_service.specs.Services.{service_at};

    /// A server at the port of the listener, which speaks the protocol of the door.
    pub(crate) fn new(
        listener: PortListener,
        seats: Vec<Seat<'a, A, R>>,
        cluster: &'a RunningCluster<A>,
        budgets: &'a Vec<ClientBudget>,
        door: &'b Door<'b>,
    ) -> Self
        requires asked { All (λ s. s.targets.cluster.now ≡ cluster.now) seats.items }
        requires shared { All (λ s. s.targets.budgets.now ≡ budgets.now.items) seats.items }
        ensures { result ≡ service_at door.now.protocol cluster.now (vec_len seats.entry) budgets.now.items listener.port }
    {
        let PortListener { listener, port } = listener;
        Server {
            listener,
            port,
            seats,
            cluster,
            budgets,
            door,
        }
    }
}

impl<'b, A: Application, R: Wait> Server<'_, 'b, A, R> {
    ghost use Rattle.std.specs.Prelude.{◌≡◌};

    /// What is known of the server once it has ended.
    fn ended(&self) -> EndedService<A>
        ensures { result ≡ self.now }
    {
        EndedService {
            port: self.port,
            protocol: self.door.protocol(),
            cluster: Snapshot::of(self.cluster),
            seats: self.seats.len(),
            budgets: Snapshot::of(self.budgets),
        }
    }

    /// What ends the server.
    pub(crate) fn end(&self) -> ServerEnd<'b> {
        ServerEnd {
            port: self.port,
            door: self.door,
        }
    }
}

impl<A: Application + Send, R: Clock + Threads + Wait + Sync> Server<'_, '_, A, R> {
    /// Serves clients until the server ends.
    pub(crate) fn listen(self, rt: &R, alloc: Global) {
        let Server {
            listener,
            port: _port,
            seats,
            cluster: _cluster,
            budgets: _budgets,
            door,
        } = self;
        listen(rt, alloc, listener, seats, door);
    }
}

/// A server at the port of the listener, if there is one.
pub(crate) fn http_server<'a, 'b, A: Application, R: Wait>(
    listener: Option<PortListener>,
    seats: Vec<Seat<'a, A, R>>,
    cluster: &'a RunningCluster<A>,
    budgets: &'a Vec<ClientBudget>,
    door: &'b Door<'b>,
) -> Option<Server<'a, 'b, A, R>>
    requires asked { All (λ s. s.targets.cluster.now ≡ cluster.now) seats.items }
    requires shared { All (λ s. s.targets.budgets.now ≡ budgets.now.items) seats.items }
    ensures { result ≡ option_map (λ l. service_at door.now.protocol cluster.now (vec_len seats.entry) budgets.now.items l.port) listener }
{
    match listener {
        Some(listener) => Some(Server::new(listener, seats, cluster, budgets, door)),
        None => None,
    }
}

/// What is known of a server once it has ended, if there is one.
fn ended_if_any<A: Application, R: Wait>(
    server: &Option<Server<'_, '_, A, R>>,
) -> Option<EndedService<A>>
    ensures { result ≡ server.now }
{
    match server {
        Some(server) => Some(server.ended()),
        None => None,
    }
}

/// The port and the door of a server, by which it is ended.
#[derive(Clone, Copy)]
pub(crate) struct ServerEnd<'b> {
    pub(crate) port: u16,
    pub(crate) door: &'b Door<'b>,
}

impl ServerEnd<'_> {
    /// Waits until the server has ended. If that isn't watched, returns at once unless the server is to end. Once it is to end, this connects
    /// to its listener to wake it, and after the protocol's time of grace closes what is still open.
    pub(crate) fn wait<R: Clock + Net<Listener = TcpListener, Stream = TcpStream> + Wait>(
        self,
        rt: &R,
        is_watched: bool,
    ) {
        let ServerEnd { port, door } = self;
        let mut looks = 0u32;
        for _ in rt.forever() {
            if door.is_closed() || !(is_watched || door.is_over()) {
                break;
            }
            if door.is_over() {
                looks = looks.saturating_add(1);
                if looks > door.protocol().grace_looks() {
                    door.end_connections(rt);
                }
                let _ = TcpStream::connect(rt, (Ipv4Addr::LOCALHOST, port));
            }
            let _ = thread::sleep(rt, Duration::from_millis(LOOK_MS));
        }
    }
}

/// The servers of a cluster as they begin: that of sessions, and that of HTTP, if it is served.
pub(crate) struct Servers<'a, 'b, A: Application, R: Wait> {
    pub(crate) sessions: Server<'a, 'b, A, R>,
    pub(crate) http: Option<Server<'a, 'b, A, R>>,
}

impl<A: Application, R: Wait> Servers<'_, '_, A, R> {
    ghost use Rattle.std.specs.Prelude.{◌≡◌};

    /// What is known of the servers once they have ended.
    pub(crate) fn ended(&self) -> EndedServices<A>
        ensures { result ≡ record { sessions = self.now.sessions; http = self.now.http } }
    {
        EndedServices {
            sessions: self.sessions.ended(),
            http: ended_if_any(&self.http),
        }
    }
}
