//! A connection to the broker: what is sent, and what comes.
use crate::wrong::Wrong;
use std::alloc::Global;
use std::io::{Read, Write};
use std::net::{Ipv4Addr, Net, SocketAddr, TcpListener, TcpStream};
use std::rt::Clock;
use std::thread;
use std::time::Duration;

/// How often a client tries to connect, and for how many milliseconds it waits in between.
const TRIES: u32 = 400;

const PAUSE: u64 = 10;

/// A connection to a port of the loopback, once the broker listens there; none waits longer than ten seconds for what is to come.
pub(crate) fn open<R: Net<Listener = TcpListener, Stream = TcpStream> + Clock>(
    rt: &R,
    port: u16,
) -> Result<TcpStream, Wrong> {
    for _ in 0..TRIES {
        let address = SocketAddr::from((Ipv4Addr::LOCALHOST, port));
        if let Ok(stream) = TcpStream::connect(rt, address) {
            stream
                .set_read_timeout(Some(Duration::from_secs(10)))
                .ok()
                .ok_or(Wrong::Connects)?;
            stream.set_nodelay(true).ok().ok_or(Wrong::Connects)?;
            return Ok(stream);
        }
        thread::sleep(rt, Duration::from_millis(PAUSE));
    }
    Err(Wrong::Connects)
}

/// Sends bytes.
pub(crate) fn send(stream: &mut TcpStream, bytes: &[u8]) -> Result<(), Wrong> {
    stream.write_all(bytes).ok().ok_or(Wrong::Sends)
}

/// Whether just these bytes come next.
pub(crate) fn gets(stream: &mut TcpStream, alloc: Global, bytes: &[u8]) -> Result<(), Wrong> {
    let mut buffer = vec![in alloc; 0u8; bytes.len()].ok().ok_or(Wrong::Memory)?;
    stream.read_exact(&mut buffer).ok().ok_or(Wrong::Silent)?;
    if buffer.as_slice() == bytes {
        Ok(())
    } else {
        Err(Wrong::Bytes)
    }
}

/// Sends bytes, which are answered by just these.
pub(crate) fn say(
    stream: &mut TcpStream,
    alloc: Global,
    bytes: &[u8],
    answer: &[u8],
) -> Result<(), Wrong> {
    send(stream, bytes)?;
    gets(stream, alloc, answer)
}

/// The bytes of the next packet after its length, where it has fewer than 128 of them and begins with this byte.
pub(crate) fn wanted(stream: &mut TcpStream, alloc: Global, first: u8) -> Result<Vec<u8>, Wrong> {
    let mut head = [0; 2];
    stream.read_exact(&mut head).ok().ok_or(Wrong::Silent)?;
    let [found, length] = head;
    if found != first {
        return Err(Wrong::Packet(found));
    }
    let mut body = vec![in alloc; 0u8; usize::from(length)]
        .ok()
        .ok_or(Wrong::Memory)?;
    stream.read_exact(&mut body).ok().ok_or(Wrong::Silent)?;
    Ok(body)
}

/// Whether the stream ends next.
pub(crate) fn ends(stream: &mut TcpStream) -> Result<(), Wrong> {
    let mut one = [0; 1];
    match stream.read(&mut one) {
        Ok(0) => Ok(()),
        _ => Err(Wrong::Stays),
    }
}
