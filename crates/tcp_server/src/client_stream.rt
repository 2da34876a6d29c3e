//! The stream of a client on TCP.
use crate::addresses::Claim;
use mio::event::Source;
use mio::net::TcpStream;
use mio::{Interest, Registry, Token};
use std::io;
use std::net::SocketAddr;
use tcp_edge::{IoOutcome, Wire};

/// The stream of a client. Where the connections of each address are bounded, it is one of those of its address until it is dropped.
#[derive(Drop)]
pub struct ClientStream {
    stream: TcpStream,
    _claim: Option<Claim>,
}

impl ClientStream {
    /// A stream, and its claim on its address.
    pub(crate) fn new(stream: TcpStream, claim: Option<Claim>) -> ClientStream {
        ClientStream {
            stream,
            _claim: claim,
        }
    }

    /// The address of its peer, where the system tells it: one call of the system.
    pub(crate) fn peer(&self) -> Option<SocketAddr> {
        self.stream.peer_addr().ok()
    }

    /// The bytes that came and were not read, as far as they fit into the buffer; they stay to be read.
    pub(crate) fn peek<'b>(&self, buffer: &'b mut [u8]) -> io::Result<&'b [u8]> {
        let count = self.stream.peek(buffer)?;
        Ok(&buffer[..count])
    }
}

/// What came and what went nobody knows.
impl Wire for ClientStream {
    ghost use Rattle.std.specs.Prelude.{⊤};

    ghost receives = { λ _ _ _. ⊤ };

    ghost sends = { λ _ _ _. ⊤ };

    fn receive(&mut self, buffer: &mut [u8]) -> IoOutcome {
        self.stream.receive(buffer)
    }

    fn send(&mut self, bytes: &[u8]) -> IoOutcome {
        self.stream.send(bytes)
    }
}

impl Source for ClientStream {
    fn register(
        &mut self,
        registry: &Registry,
        token: Token,
        interests: Interest,
    ) -> io::Result<()> {
        self.stream.register(registry, token, interests)
    }

    fn reregister(
        &mut self,
        registry: &Registry,
        token: Token,
        interests: Interest,
    ) -> io::Result<()> {
        self.stream.reregister(registry, token, interests)
    }

    fn deregister(&mut self, registry: &Registry) -> io::Result<()> {
        self.stream.deregister(registry)
    }
}
