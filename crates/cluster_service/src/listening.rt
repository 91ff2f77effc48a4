//! The connections of a server, each served in a thread of its own.
ghost use Rattle.std.specs.Prelude.{◌≡◌, All, IfOk, length, vec_len};

use crate::budgets::ClientBudget;
use crate::door::Door;
use crate::live_targets::LiveTargets;
use crate::protocol::serve_stream;
use abci::Application;
use cluster_workers::{RunningCluster, Stop};
use commit_board::ReaderSeat;
use std::alloc::{AllocError, Global};
use std::net::{TcpListener, TcpStream};
use std::sync::{Arc, Mutex, Wait};
use std::thread;
use std::thread::Threads;
use std::time::{Clock, Duration};

/// How many milliseconds pass before a failed attempt to get a connection or a thread is repeated.
const RETRY_MS: u64 = 10;

/// The targets of one connection at a time, with the number of their seat.
#[derive(Drop)]
pub(crate) struct Seat<'a, A: Application, R: Wait> {
    number: usize,
    pub(crate) targets: LiveTargets<'a, A, R>,
}

/// A seat for each reader of the board. The clients of all share these budgets of entries.
pub(crate) fn seats_of<'a, A: Application, R: Wait>(
    rt: &'a R,
    alloc: Global,
    cluster: &'a RunningCluster<A>,
    budgets: &'a [ClientBudget],
    readers: Vec<ReaderSeat>,
    stop: &'a Stop,
) -> Result<Vec<Seat<'a, A, R>>, AllocError>
    requires readers { All (λ reader. reader.board ≡ cluster.now.board) readers.items }
    requires budgets { length budgets.now ≡ cluster.now.replicas }
    ensures count { IfOk result (λ seats. vec_len seats ≡ vec_len readers) }
    ensures cluster { IfOk result (λ seats. All (λ s. s.targets.cluster.now ≡ cluster.now) seats.items) }
    ensures budgets { IfOk result (λ seats. All (λ s. s.targets.budgets.now ≡ budgets.now) seats.items) }
{
    let mut seats = Vec::with_capacity(alloc, readers.len())?;
    for reader in readers {
        let targets = LiveTargets::new(rt, alloc, cluster, budgets, reader, stop);
        let number = seats.len();
        seats.push(Seat { number, targets })?;
    }
    Ok(seats)
}

/// Serves a connection, whose stream the door has meanwhile, unless the server is to end.
fn serve_connection<A: Application, R: Clock + Wait>(
    rt: &R,
    alloc: Global,
    stream: TcpStream,
    seat: &mut Seat<'_, A, R>,
    door: &Door<'_>,
) {
    let Ok(stream) = Arc::new(alloc, stream) else {
        return;
    };
    let Ok(shown) = Arc::try_clone(&stream) else {
        return;
    };
    door.set(rt, seat.number, Some(shown));
    if !door.is_over() {
        serve_stream(alloc, door.protocol(), &stream, &mut seat.targets);
    }
    door.set(rt, seat.number, None);
}

/// A connection that is to be served in a thread of its own.
struct Connection<'a, 'r, 'f, 'd, 's, A: Application, R: Wait> {
    rt: &'r R,
    alloc: Global,
    stream: TcpStream,
    seat: Seat<'a, A, R>,
    free: &'f Mutex<Vec<Seat<'a, A, R>>>,
    door: &'d Door<'s>,
}

// An own `Drop` keeps proofs short: an owner drops it by one call. See docs/WORKING.md.
impl<A: Application, R: Wait> Drop for Connection<'_, '_, '_, '_, '_, A, R> {
    fn drop(self) {
        let Connection {
            rt: _rt,
            alloc: _alloc,
            stream: _stream,
            seat: _seat,
            free: _free,
            door: _door,
        } = self;
    }
}

impl<A: Application, R: Clock + Wait> Connection<'_, '_, '_, '_, '_, A, R> {
    /// Serves the connection until it ends, and then frees its seat or uses it up, as the protocol says.
    fn serve(self) {
        let Connection {
            rt,
            alloc,
            stream,
            mut seat,
            free,
            door,
        } = self;
        serve_connection(rt, alloc, stream, &mut seat, door);
        if door.protocol().frees_seats() {
            // There is room: the list has had all seats.
            let _ = free.lock(rt).push(seat);
        }
    }
}

/// Waits for `RETRY_MS`.
fn pause<R: Clock>(rt: &R) {
    let _ = thread::sleep(rt, Duration::from_millis(RETRY_MS));
}

/// The next free seat; `None` if all are used up, or the server is to end.
fn next_seat<'a, A: Application, R: Clock + Wait>(
    rt: &R,
    free: &Mutex<Vec<Seat<'a, A, R>>>,
    door: &Door<'_>,
) -> Option<Seat<'a, A, R>> {
    for _ in rt.forever() {
        if door.is_over() {
            return None;
        }
        let seat = free.lock(rt).pop();
        if seat.is_some() || !door.protocol().frees_seats() {
            return seat;
        }
        pause(rt);
    }
    None
}

/// The next connection; `None` if the server is to end. Tries again if a connection can't be accepted.
fn next_stream<R: Clock + Wait>(
    rt: &R,
    listener: &TcpListener,
    door: &Door<'_>,
) -> Option<TcpStream> {
    for _ in rt.forever() {
        let taken = listener.accept();
        if door.is_over() {
            return None;
        }
        match taken {
            Ok((stream, _)) => return Some(stream),
            Err(_) => pause(rt),
        }
    }
    None
}

/// Accepts connections, at most as many at once as there are seats, and serves each in a thread of its own, until all seats are used up or
/// the server is to end. Then it closes the listener, so that the next client is refused. Returns when all connections have ended, and
/// closes the door.
///
/// A connection or a thread that can't be had is tried again, and uses up no seat.
pub(crate) fn listen<'a, 's, A, R>(
    rt: &R,
    alloc: Global,
    listener: TcpListener,
    seats: Vec<Seat<'a, A, R>>,
    door: &Door<'s>,
)
where
    A: Application + Send,
    R: Clock + Threads + Wait + Sync,
{
    let free = Mutex::new(seats);
    let free = &free;
    thread::scope(thread::scope_env(), rt, move |scope| {
        for _ in rt.forever() {
            let Some(seat) = next_seat(rt, free, door) else {
                break;
            };
            let Some(stream) = next_stream(rt, &listener, door) else {
                break;
            };
            let connection = Connection {
                rt,
                alloc,
                stream,
                seat,
                free,
                door,
            };
            let mut session = move || connection.serve();
            for _ in rt.forever() {
                match scope.spawn(session) {
                    Ok(_) => break,
                    Err(refused) => session = refused.value,
                }
                if door.is_over() {
                    break;
                }
                pause(rt);
            }
        }
        drop(listener);
    });
    door.close();
}
