//! One connection alone, which waits in its reads and writes.
use crate::asserting::assert_same;
use crate::tcp::echo::{read, write};
use std::io::{Read, Write};
use std::net::{Ipv4Addr, SocketAddr, TcpStream};
use std::process::Abort;
use std::rt::Clock;
use std::test::Fail;
use std::time::{Duration, Instant};
use tcp_edge::{Patient, TcpSource};
use transport::{Arrival, Got, Put, Source, Transport};

/// Whether so much time passed since then as a call waits.
fn has_waited<R: Abort + Clock>(rt: &R, start: Instant) -> bool {
    match start.elapsed(rt) {
        Ok(waited) => waited >= Duration::from_millis(90) && waited < Duration::from_secs(20),
        Err(_) => panic!(rt; "no clock"),
    }
}

#[test]
fn a_read_waits_by_itself(rt: HostRuntime) -> Result<(), Fail> {
    let mut source = TcpSource::open(&rt, Ipv4Addr::LOCALHOST, 0)?;
    let address = SocketAddr::from((Ipv4Addr::LOCALHOST, source.port()));
    let mut peer = TcpStream::connect(&rt, address)?;
    let Arrival::Came(socket) = source.next() else {
        panic!(rt; "nobody came");
    };
    let mut alone = Patient::new(&rt, rt.alloc(), socket)?;
    let mut buffer = [0; 4096];
    let start = Instant::now(&rt)?;
    assert_same(&rt, &read(&rt, &mut alone, &mut buffer), &Got::Idle);
    assert!(rt; has_waited(&rt, start));
    peer.write_all(b"abc")?;
    assert_same(&rt, &read(&rt, &mut alone, &mut buffer), &Got::Bytes(3));
    assert!(rt; buffer.starts_with(b"abc"));
    assert_same(&rt, &write(&rt, &mut alone, b"de"), &Put::Wrote(2));
    let mut two = [0; 2];
    peer.read_exact(&mut two)?;
    assert_same(&rt, &two, &*b"de");
    drop(peer);
    assert_same(&rt, &read(&rt, &mut alone, &mut buffer), &Got::End);
    Ok(())
}

/// Writes until nothing more goes.
fn write_until_idle<T: Transport>(rt: &impl Abort, transport: &mut T) {
    for _ in 0..100_000 {
        match write(rt, transport, &[7; 4096]) {
            Put::Wrote(_) => {}
            Put::Idle => return,
            Put::Failed => panic!(rt; "not sent"),
        }
    }
    panic!(rt; "it takes everything")
}

/// Reads so much that the other end may write again.
fn read_much(rt: &impl Abort, peer: &mut TcpStream) {
    let mut bytes = [0; 4096];
    for _ in 0..100_000 {
        match peer.read(&mut bytes) {
            Ok(4096) => {}
            Ok(_) => return,
            Err(_) => return,
        }
    }
    panic!(rt; "it has no end")
}

#[test]
fn a_write_waits_by_itself(rt: HostRuntime) -> Result<(), Fail> {
    let mut source = TcpSource::open(&rt, Ipv4Addr::LOCALHOST, 0)?;
    let address = SocketAddr::from((Ipv4Addr::LOCALHOST, source.port()));
    let mut peer = TcpStream::connect(&rt, address)?;
    let Arrival::Came(socket) = source.next() else {
        panic!(rt; "nobody came");
    };
    let mut alone = Patient::new(&rt, rt.alloc(), socket)?;
    write_until_idle(&rt, &mut alone);
    // What comes does not end the wait.
    peer.write_all(b"abc")?;
    let start = Instant::now(&rt)?;
    assert_same(&rt, &write(&rt, &mut alone, b"de"), &Put::Idle);
    assert!(rt; has_waited(&rt, start));
    peer.set_nonblocking(true)?;
    for _ in 0..100 {
        read_much(&rt, &mut peer);
        if write(&rt, &mut alone, b"de") == Put::Wrote(2) {
            return Ok(());
        }
    }
    panic!(rt; "it never goes on")
}
