//! How much of a connection's first packet has come.
ghost use Rattle.std.specs.Prelude.{◌≡◌, ◌<◌, length, true};
ghost use Rattle.mqtt_wire.specs.Stream.{IsOpen};

use crate::client_stream::ClientStream;
use mqtt_wire::Splitter;
use std::alloc::{AllocError, Global};
use std::io::ErrorKind;

/// So many bytes of a first packet are waited for at most: a socket's buffer has room for them, as systems set it.
const MOST_AWAITED: usize = 4_096;

/// Whether more of a stream that begins with these bytes is waited for: they begin a packet, show no fault, and are neither all of it nor [`MOST_AWAITED`] bytes. Where an
/// allocation for the look fails, nothing is waited for.
pub(crate) fn is_awaited(alloc: Global, start: &[u8]) -> bool
    ensures open { result ≡ true → IsOpen start.now }
    ensures few { result ≡ true → length start.now < 4096 }
{
    if start.len() >= MOST_AWAITED {
        return false;
    }
    let mut splitter = Splitter::new(alloc);
    if splitter.feed(start).is_err() {
        return false;
    }
    match splitter.next() {
        Ok(None) => true,
        Ok(Some(packet)) => {
            drop(packet);
            false
        }
        Err(_) => false,
    }
}

/// Who looks at what streams begin with.
#[derive(Drop)]
pub(crate) struct FirstLook {
    alloc: Global,
    front: Vec<u8>,
}

impl FirstLook {
    /// One with room for what is waited for.
    pub(crate) fn new(alloc: Global) -> Result<FirstLook, AllocError> {
        let front = vec![in alloc; 0; MOST_AWAITED]?;
        Ok(FirstLook { alloc, front })
    }

    /// Whether the first packet of a stream has come, as far as it is waited for; or none will. What was sent stays to be read.
    pub(crate) fn has_come(&mut self, stream: &ClientStream) -> bool {
        match stream.peek(&mut self.front) {
            Ok([]) => true,
            Ok(start) => !is_awaited(self.alloc, start),
            Err(error) => error.kind() != ErrorKind::WouldBlock,
        }
    }
}
