//! The door of a server: the streams of its open connections, how long each has been open, and whether more are admitted.
ghost use Rattle.std.specs.Prelude.{◌≡◌, IfOk};

use crate::protocol::Protocol;
use cluster_workers::Stop;
use std::alloc::{AllocError, Global};
use std::net::{Shutdown, TcpStream};
use std::sync::atomic::{AtomicBool, Ordering};
use std::sync::{Arc, Mutex, Wait};
use std::thread;
use std::time::{Clock, Duration};

/// How many milliseconds pass between two looks at the open connections, and at whether a server is to end.
pub(crate) const LOOK_MS: u64 = 50;

/// A connection that is open.
#[derive(Drop)]
struct OpenConnection {
    stream: Arc<TcpStream>,
    /// The number of looks at it.
    looks: u32,
}

impl OpenConnection {
    /// Looks at the connection once more.
    fn look(&mut self, protocol: Protocol) {
        self.looks = self.looks.saturating_add(1);
        if let Some(how) = protocol.shut_at(self.looks) {
            let _ = self.stream.shutdown(how);
        }
    }
}

/// What the connections of a server share with the threads that end them.
#[derive(Drop)]
pub(crate) struct Door<'s> {
    protocol: Protocol,
    /// The open connections, by the number of their seat.
    connections: Mutex<Vec<Option<OpenConnection>>>,
    /// Asked once the server is to end.
    over: &'s Stop,
    /// Whether the server has ended.
    is_closed: AtomicBool,
}

impl<'s> Door<'s> {
    /// A door for as many connections at once as there are seats. None is open. The server ends once `over` is asked.
    pub(crate) fn new(
        alloc: Global,
        protocol: Protocol,
        seats: usize,
        over: &'s Stop,
    ) -> Result<Self, AllocError>
        ensures { IfOk result (λ door. door.protocol ≡ protocol) }
    {
        let mut connections = Vec::with_capacity(alloc, seats)?;
        for _ in 0..seats {
            connections.push(None)?;
        }
        Ok(Door {
            protocol,
            connections: Mutex::new(connections),
            over,
            is_closed: AtomicBool::new(false),
        })
    }
}

impl Door<'_> {
    /// What the server speaks.
    pub(crate) fn protocol(&self) -> Protocol
        ensures { result ≡ self.now.protocol }
    {
        self.protocol
    }

    /// Sets the stream of the connection in a seat; `None` if none is open there.
    pub(crate) fn set<R: Wait>(&self, rt: &R, seat: usize, stream: Option<Arc<TcpStream>>) {
        let mut connections = self.connections.lock(rt);
        if let Some(place) = connections.get_mut(seat) {
            *place = match stream {
                Some(stream) => Some(OpenConnection { stream, looks: 0 }),
                None => None,
            };
        }
    }

    /// Looks at each open connection.
    fn look<R: Wait>(&self, rt: &R) {
        let mut connections = self.connections.lock(rt);
        for place in connections.iter_mut() {
            if let Some(connection) = place {
                connection.look(self.protocol);
            }
        }
    }

    /// Looks at the open connections again and again, until the server is to end.
    pub(crate) fn watch<R: Clock + Wait>(&self, rt: &R) {
        for _ in rt.forever() {
            if self.is_over() {
                break;
            }
            self.look(rt);
            let _ = thread::sleep(rt, Duration::from_millis(LOOK_MS));
        }
    }

    /// Closes all open connections: their clients can no longer send or receive.
    pub(crate) fn end_connections<R: Wait>(&self, rt: &R) {
        let connections = self.connections.lock(rt);
        for place in connections.iter() {
            if let Some(connection) = place {
                let _ = connection.stream.shutdown(Shutdown::Both);
            }
        }
    }

    /// Asks the server to end.
    pub(crate) fn request_end(&self) {
        self.over.ask();
    }

    /// Whether the server is to end.
    pub(crate) fn is_over(&self) -> bool {
        self.over.is_asked()
    }

    /// Closes the door: the server has ended.
    pub(crate) fn close(&self) {
        self.is_closed.store(true, Ordering::SeqCst);
    }

    pub(crate) fn is_closed(&self) -> bool {
        self.is_closed.load(Ordering::SeqCst)
    }
}
