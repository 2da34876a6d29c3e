//! Where connections come from: a listener.
ghost use Rattle.std.specs.Prelude.{◌≡◌, ◌<◌, IfOk, IfErr, IfSome, None, Some};
ghost use Rattle.std.specs.IoError.{error_kind, raw_os_error};
ghost use Rattle.tcp_edge.specs.Sources.{IsFresh, IsPortFor, is_short, lacks_descriptors, open_error_of, passed_over, refused_arrival};
ghost use Rattle.transport.specs.Counting.{ComesNew, MayCome, after_arrival};

use crate::socket::Socket;
use mio::net::{TcpListener, TcpStream};
use std::io;
use std::io::ErrorKind;
use std::marker::Model;
use std::net::{Ipv4Addr, Net, SocketAddr};
use thiserror::Error;
use transport::{Arrival, Source, Tally};

// How many connections that are gone already one call passes over: more than the system lets wait. So who is left behind them came
// since, and is told of by the next wait.
const MOST_GONE: u32 = 65_536;

// The system's numbers of what it may be short of: memory (ENOMEM), descriptors in all (ENFILE) and of this process (EMFILE), buffers
// (ENOBUFS).
const NO_MEMORY: i32 = 12;

const TOO_MANY_IN_ALL: i32 = 23;

const TOO_MANY: i32 = 24;

const NO_BUFFERS: i32 = 105;

/// Why no listener was opened.
#[derive(Clone, Copy, Debug, PartialEq, Eq, Error)]
pub enum ListenError {
    /// Another listener has the port.
    #[error("the port is in use")]
    PortInUse,
    /// The address is not one of this machine.
    #[error("the address is not one of this machine")]
    AddressElsewhere,
    /// The process may not listen there, as at a port below 1024.
    #[error("permission denied")]
    NotPermitted,
    /// The process, or the system, has as many file descriptors as it may.
    #[error("too few file descriptors")]
    TooFewDescriptors,
    /// The system refused.
    #[error("the system refused")]
    System,
}

/// A listener at an address of this machine. It never waits: where no connection waits it is idle, and also where the system is short of something for one
/// ([`not_accepted`]). Those that come while it is up wait for it.
///
/// Contracts see it as a `SourceState`: the listener of the system's, its port, and how often it gave and failed.
#[derive(Drop)]
pub struct TcpSource {
    listener: TcpListener,
    port: u16,
    tally: Tally,
}

impl Model for TcpSource {
    ghost use Rattle.tcp_edge.specs.Sources.{SourceState};

    ghost Value = { SourceState };

    ghost view = { λ s. record { listener = s.listener; port = s.port; tally = s.tally } };
}

/// Whether the system has no descriptor left for this process, by an error of its own.
pub(crate) fn is_without_descriptors(error: &io::Error) -> bool
    ensures { result ≡ lacks_descriptors (raw_os_error error.now) }
{
    match error.raw_os_error() {
        Some(code) => code == TOO_MANY_IN_ALL || code == TOO_MANY,
        None => false,
    }
}

/// What it means that a listener was not opened.
fn open_error(error: &io::Error) -> ListenError
    ensures { result ≡ open_error_of error.now }
{
    if is_without_descriptors(error) {
        return ListenError::TooFewDescriptors;
    }
    match error.kind() {
        ErrorKind::AddrInUse => ListenError::PortInUse,
        ErrorKind::AddrNotAvailable => ListenError::AddressElsewhere,
        ErrorKind::PermissionDenied => ListenError::NotPermitted,
        _ => ListenError::System,
    }
}

/// What it means that no connection was accepted. `None` is one that was gone already: another one may wait.
fn refused(kind: ErrorKind) -> Option<Arrival<Socket<TcpStream>>>
    ensures { result ≡ refused_arrival kind }
{
    match kind {
        ErrorKind::WouldBlock => Some(Arrival::Idle),
        ErrorKind::Interrupted => None,
        ErrorKind::ConnectionAborted => None,
        _ => Some(Arrival::Failed),
    }
}

/// Whether the system is short of something for now, by an error of its own: of memory, of descriptors or of buffers.
fn is_short_of(error: &io::Error) -> bool
    ensures { result ≡ is_short (raw_os_error error.now) }
{
    match error.raw_os_error() {
        Some(code) => {
            code == NO_MEMORY || code == TOO_MANY_IN_ALL || code == TOO_MANY || code == NO_BUFFERS
        }
        None => false,
    }
}

/// What it means that the system accepted no connection, for this reason.
///
/// A lack of memory (ENOMEM), of descriptors (EMFILE, ENFILE) or of buffers (ENOBUFS) passes: the listener is idle. Whoever waits stays in its
/// queue, and no event tells of it again, so the listener is asked again at the next wait. `None` is a connection that was gone already:
/// another one may wait. Each other reason is a failure.
pub fn not_accepted(error: &io::Error) -> Option<Arrival<Socket<TcpStream>>>
    ensures passes { result ≡ passed_over error.now }
    ensures fresh { IfSome result (λ arrival. IsFresh arrival) }
{
    if is_short_of(error) {
        Some(Arrival::Idle)
    } else {
        refused(error.kind())
    }
}

impl TcpSource {
    /// Listens at a port of this address, or of every address of this machine where it is 0.0.0.0. At port 0 the system chooses one.
    ///
    /// # Errors
    ///
    /// [`ListenError`].
    pub fn open(net: &impl Net, address: Ipv4Addr, port: u16) -> Result<TcpSource, ListenError>
        ensures port { IfOk result (λ source. IsPortFor port source.port) }
        ensures fresh { IfOk result (λ source. source.tally ≡ record { failures = 0; arrivals = 0 }) }
    {
        let place = SocketAddr::from((address, port));
        let listener = TcpListener::bind(net, place).map_err(|e| open_error(&e))?;
        let chosen = listener
            .local_addr()
            .map_err(|_| ListenError::System)?
            .port();
        if chosen == 0 || port != 0 && chosen != port {
            return Err(ListenError::System);
        }
        Ok(TcpSource {
            listener,
            port: chosen,
            tally: Tally::NONE,
        })
    }

    /// The port.
    pub fn port(&self) -> u16
        ensures { result ≡ self.now.port }
    {
        self.port
    }

    /// The connection that waits longest. `None` is one that was gone already.
    fn accept(&self) -> Option<Arrival<Socket<TcpStream>>>
        ensures { IfSome result (λ arrival. IsFresh arrival) }
    {
        match self.listener.accept() {
            Ok((stream, _)) => match stream.set_nodelay(true) {
                Ok(()) => Some(Arrival::Came(Socket::new(stream))),
                Err(_) => None,
            },
            Err(e) => not_accepted(&e),
        }
    }

    /// The connection that waits longest and is not gone.
    fn accept_next(&self) -> Arrival<Socket<TcpStream>>
        ensures { IsFresh result }
    {
        for _ in 0..MOST_GONE {
            if let Some(arrival) = self.accept() {
                return arrival;
            }
        }
        Arrival::Idle
    }
}

impl Source<Socket<TcpStream>> for TcpSource {
    ghost tally = { λ s. s.tally };

    ghost arrived = { λ s. None };

    fn next(&mut self) -> Arrival<Socket<TcpStream>>
        requires { MayCome self.old.tally }
        ensures tally { self.new.tally ≡ after_arrival result self.old.tally }
        ensures new { ComesNew (λ socket. socket.counts) result }
        ensures fresh { IsFresh result }
        ensures same { (self.new.port ≡ self.old.port) × (self.new.listener ≡ self.old.listener) }
    {
        let arrival = self.accept_next();
        self.tally.count_arrival(&arrival);
        arrival
    }

    fn failures(&self) -> u64 {
        self.tally.failures
    }

    fn arrivals(&self) -> u64 {
        self.tally.arrivals
    }
}

impl mio::event::Source for TcpSource {
    ghost use Rattle.std.specs.Prelude.{◌≡◌};

    ghost keeps = { λ old new. new ≡ old };

    fn register(
        &mut self,
        registry: &mio::Registry,
        token: mio::Token,
        interests: mio::Interest,
    ) -> std::io::Result<()> {
        self.listener.register(registry, token, interests)
    }

    fn reregister(
        &mut self,
        registry: &mio::Registry,
        token: mio::Token,
        interests: mio::Interest,
    ) -> std::io::Result<()> {
        self.listener.reregister(registry, token, interests)
    }

    fn deregister(&mut self, registry: &mio::Registry) -> std::io::Result<()> {
        self.listener.deregister(registry)
    }
}
