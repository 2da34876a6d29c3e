//! Serving the metrics.
use crate::peer::Peer;
use http_server::{Config, Connection, Service};
use http1::Limits;
use mio::net::TcpStream;
use std::alloc::Global;
use std::hash::RandomState;
use std::io;
use std::net::{Ipv4Addr, Net};
use std::random::RandomSource;
use std::time::Instant;
use tcp_edge::{ListenError, TcpSource};
use thiserror::Error;
use transport::{Arrival, Source};

/// How many clients are served at once.
const MOST_PEERS: usize = 16;

/// For how many milliseconds nobody need look whether a client comes, or whether one that is there may be read from or written to.
const IDLE_WAIT: u64 = 100;

const CLIENT_WAIT: u64 = 10;

/// What a client may send: no request for the metrics is long. While an answer waits to be taken, no further request is answered: so each client is answered once in a turn.
const CONFIG: Config = Config {
    limits: Limits {
        max_head_len: 8_192,
        max_extensions_len: 1_024,
        max_trailers_len: 1_024,
    },
    max_body_len: 4_096,
    max_pending: 0,
    read_size: 1_024,
};

/// The keys by which the fields of a request are found. They need not be secret: a head has at most 64 fields, however many of them collide.
struct FixedKeys;

impl RandomSource for FixedKeys {
    fn fill_bytes(&self, buf: &mut [u8]) -> io::Result<()> {
        buf.fill(0);
        Ok(())
    }
}

/// Why the metrics are not served.
#[derive(Clone, Copy, Debug, PartialEq, Eq, Error)]
pub enum OpenError {
    /// The address was not listened at.
    #[error(transparent)]
    NotListening(ListenError),
    /// An allocation failed.
    #[error("out of memory")]
    Memory,
}

/// A server of HTTP/1.1, of which no call waits: so no client that is slow or silent holds up who calls it. Where there are as many clients as it serves, who came first makes room
/// for who comes.
#[derive(Drop)]
pub struct MetricsServer {
    alloc: Global,
    keys: RandomState,
    source: TcpSource,
    peers: Vec<Peer>,
}

impl MetricsServer {
    /// Listens at an address and port of this machine.
    ///
    /// # Errors
    ///
    /// [`OpenError::NotListening`], [`OpenError::Memory`].
    pub fn open(
        net: &impl Net,
        alloc: Global,
        address: Ipv4Addr,
        port: u16,
    ) -> Result<MetricsServer, OpenError> {
        let source = TcpSource::open(net, address, port).map_err(OpenError::NotListening)?;
        let keys = RandomState::new(&FixedKeys).map_err(|_| OpenError::NotListening(
            ListenError::System,
        ))?;
        Ok(MetricsServer {
            alloc,
            keys,
            source,
            peers: Vec::with_capacity(alloc, MOST_PEERS).map_err(|_| OpenError::Memory)?,
        })
    }

    /// The port.
    pub fn port(&self) -> u16 {
        self.source.port()
    }

    /// Takes up clients, and reads from each of them, answers by this service, and writes to it, once. For how many milliseconds nobody need call again.
    pub fn go_on<S: Service>(&mut self, service: &mut S, now: Instant) -> u64 {
        self.accept_all(now);
        if self.serve_all(service, now) {
            0
        } else if self.peers.is_empty() {
            IDLE_WAIT
        } else {
            CLIENT_WAIT
        }
    }

    /// Takes up who waits.
    fn accept_all(&mut self, now: Instant) {
        for _ in 0..MOST_PEERS {
            if self.source.failures() == u64::MAX || self.source.arrivals() == u64::MAX {
                return;
            }
            match self.source.next() {
                Arrival::Came(socket) => self.admit(socket.into_wire(), now),
                Arrival::Idle | Arrival::Failed | Arrival::End => return,
            }
        }
    }

    /// Takes up a client.
    fn admit(&mut self, stream: TcpStream, now: Instant) {
        if self.peers.len() >= MOST_PEERS {
            drop(self.peers.remove(0));
        }
        let connection = Connection::new(self.alloc, self.keys, CONFIG);
        let _no_memory = self.peers.push(Peer::new(stream, connection, now));
    }

    /// Goes on with each client. Whether bytes went.
    fn serve_all<S: Service>(&mut self, service: &mut S, now: Instant) -> bool {
        let mut moved = false;
        for peer in self.peers.iter_mut() {
            moved |= peer.go_on(service, now);
        }
        self.peers.retain(|peer| !peer.is_done());
        moved
    }
}
