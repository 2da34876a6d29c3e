//! Peers of one worker: many, slow ones, one that stops reading, one that goes away in mid-packet.
use crate::asserting::assert_same;
use crate::tcp::echo::{Served, serve};
use std::alloc::Global;
use std::io::{ErrorKind, Read, Write};
use std::net::{Ipv4Addr, Net, SocketAddr, TcpListener, TcpStream};
use std::process::Abort;
use std::test::Fail;
use std::thread;
use tcp_edge::{ListenError, Reactor, TcpSource};

/// A packet.
const PACKET: [u8; 32] = *b"a packet of thirty-two bytes ...";

/// A hundred packets.
const WINDOW: usize = 3_200;

/// A connection to the loopback.
fn connect<R: Net<Listener = TcpListener, Stream = TcpStream> + Abort>(
    rt: &R,
    port: u16,
) -> TcpStream {
    match TcpStream::connect(rt, SocketAddr::from((Ipv4Addr::LOCALHOST, port))) {
        Ok(stream) => stream,
        Err(_) => panic!(rt; "no connection"),
    }
}

/// A hundred packets, each told from the one before.
fn window(first: u8) -> [u8; WINDOW] {
    let mut bytes = [0; WINDOW];
    for (place, byte) in bytes.iter_mut().enumerate() {
        *byte = PACKET[place % 32] ^ first ^ ((place / 32) as u8);
    }
    bytes
}

/// Sends a window.
fn send(rt: &impl Abort, stream: &mut TcpStream, first: u8) {
    if stream.write_all(&window(first)).is_err() {
        panic!(rt; "not sent");
    }
}

/// Whether this window comes back.
fn comes_back(rt: &impl Abort, stream: &mut TcpStream, first: u8) -> bool {
    let mut bytes = [0; WINDOW];
    if stream.read_exact(&mut bytes).is_err() {
        panic!(rt; "not read");
    }
    bytes == window(first)
}

/// A worker and where it listens.
fn open<R: Net + Alloc<A = Global> + Abort>(rt: &R) -> (Reactor, TcpSource, u16) {
    let listener = TcpSource::open(rt, Ipv4Addr::LOCALHOST, 0);
    match (Reactor::open(rt, rt.alloc()), listener) {
        (Ok((reactor, _alarm)), Ok(source)) => {
            let port = source.port();
            (reactor, source, port)
        }
        _ => panic!(rt; "not opened"),
    }
}

/// So many connections send ten windows each, one window of every connection before the next.
fn send_windows<R: Net<Listener = TcpListener, Stream = TcpStream> + Alloc<A = Global> + Abort>(
    rt: &R,
    port: u16,
    count: usize,
) -> usize {
    let mut streams = Vec::new(rt.alloc());
    for _ in 0..count {
        if streams.push(connect(rt, port)).is_err() {
            panic!(rt; "out of memory");
        }
    }
    let mut back = 0usize;
    for round in 0..10 {
        for stream in streams.iter_mut() {
            send(rt, stream, round);
        }
        for stream in streams.iter_mut() {
            if comes_back(rt, stream, round) {
                back = back.saturating_add(1);
            }
        }
    }
    back
}

#[test]
fn one_connection_gets_back_what_it_sends(rt: HostRuntime) -> Result<(), Fail> {
    let (reactor, source, port) = open(&rt);
    let (served, back) = thread::join(
        &rt,
        || serve(&rt, rt.alloc(), reactor, source, 1),
        || send_windows(&rt, port, 1),
    );
    assert_same(&rt, &back, &10);
    assert_same(&rt, &served, &Served { came: 1, ended: 1 });
    Ok(())
}

#[test]
fn sixteen_connections_get_back_what_they_send(rt: HostRuntime) -> Result<(), Fail> {
    let (reactor, source, port) = open(&rt);
    let (served, back) = thread::join(
        &rt,
        || serve(&rt, rt.alloc(), reactor, source, 16),
        || send_windows(&rt, port, 16),
    );
    assert_same(&rt, &back, &160);
    assert_same(
        &rt,
        &served,
        &Served {
            came: 16,
            ended: 16,
        },
    );
    Ok(())
}

#[test]
fn many_connections_get_back_what_they_send(rt: HostRuntime) -> Result<(), Fail> {
    let (reactor, source, port) = open(&rt);
    let (served, back) = thread::join(
        &rt,
        || serve(&rt, rt.alloc(), reactor, source, 256),
        || send_windows(&rt, port, 256),
    );
    assert_same(&rt, &back, &2_560);
    assert_same(
        &rt,
        &served,
        &Served {
            came: 256,
            ended: 256,
        },
    );
    Ok(())
}

/// Reads a window byte by byte.
fn comes_back_slowly(rt: &impl Abort, stream: &mut TcpStream, first: u8) -> bool {
    let expected = window(first);
    for byte in &expected {
        let mut one = [0; 1];
        if stream.read_exact(&mut one).is_err() {
            panic!(rt; "not read");
        }
        if one[0] != *byte {
            return false;
        }
    }
    true
}

/// Sends until no more goes, and reads nothing.
fn send_until_full(rt: &impl Abort, stream: &mut TcpStream) {
    if stream.set_nonblocking(true).is_err() {
        panic!(rt; "it waits");
    }
    for _ in 0..100_000 {
        match stream.write(&window(0)) {
            Ok(_) => {}
            Err(e) if e.kind() == ErrorKind::WouldBlock => return,
            Err(_) => panic!(rt; "not sent"),
        }
    }
    panic!(rt; "it takes everything")
}

/// One peer stops reading, one goes away in mid-packet, one reads byte by byte; others go on. How many windows came back.
fn be_unruly<R: Net<Listener = TcpListener, Stream = TcpStream> + Alloc<A = Global> + Abort>(
    rt: &R,
    port: u16,
) -> usize {
    let mut deaf = connect(rt, port);
    send_until_full(rt, &mut deaf);
    let mut gone = connect(rt, port);
    if gone.write_all(&PACKET[..17]).is_err() {
        panic!(rt; "not sent");
    }
    drop(gone);
    let mut slow = connect(rt, port);
    send(rt, &mut slow, 7);
    let mut back = send_windows(rt, port, 4);
    if comes_back_slowly(rt, &mut slow, 7) {
        back = back.saturating_add(1);
    }
    drop(deaf);
    back
}

#[test]
fn others_go_on_beside_unruly_peers(rt: HostRuntime) -> Result<(), Fail> {
    let (reactor, source, port) = open(&rt);
    let (served, back) = thread::join(
        &rt,
        || serve(&rt, rt.alloc(), reactor, source, 7),
        || be_unruly(&rt, port),
    );
    assert_same(&rt, &back, &41);
    assert_same(&rt, &served, &Served { came: 7, ended: 7 });
    Ok(())
}

#[test]
fn a_port_in_use_is_told_apart(rt: HostRuntime) -> Result<(), Fail> {
    let (_reactor, _source, port) = open(&rt);
    assert!(rt; port != 0);
    assert_same(
        &rt,
        &TcpSource::open(&rt, Ipv4Addr::LOCALHOST, port).err(),
        &Some(ListenError::PortInUse),
    );
    Ok(())
}
