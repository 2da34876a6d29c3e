//! A broker of which an address has a bounded number of connections, and one that keeps a bounded number of sessions.
use crate::day::{Counts, Day, Listener, live};
use crate::link::{ends, open, say, send};
use crate::loopback::clients::counts_of;
use crate::loopback::frames;
use crate::wrong::Wrong;
use std::alloc::Global;
use std::net::{Net, TcpListener, TcpStream};
use std::rt::Clock;
use std::sync::atomic::AtomicBool;
use std::thread;
use std::time::Duration;

const PORT: u16 = 18_837;

/// How often a client tries to be served once another one has left, and for how many milliseconds it waits in between.
const TRIES: u32 = 200;

const PAUSE: u64 = 5;

/// Two connections of an address are served, and a third is closed without a word; once one of the two has left, another one is served.
#[derive(Drop)]
struct Bounded;

impl Day for Bounded {
    fn broker(&self) -> Listener {
        Listener {
            per_address: 2,
            ..Listener::at(PORT, 2)
        }
    }

    fn pass<R: Net<Listener = TcpListener, Stream = TcpStream> + Clock>(
        &self,
        rt: &R,
        alloc: Global,
        _closes: &AtomicBool,
    ) -> Result<Counts, Wrong> {
        let _staying = served(rt, alloc, PORT, b'1')?;
        let mut leaving = served(rt, alloc, PORT, b'2')?;
        let mut third = open(rt, PORT)?;
        ends(&mut third)?;
        send(&mut leaving, b"\xE0\x00")?;
        ends(&mut leaving)?;
        be_served(rt, alloc, PORT)?;
        Ok(counts_of(0, 0, 0))
    }
}

/// A client of this name that is served.
fn served<R: Net<Listener = TcpListener, Stream = TcpStream> + Clock>(
    rt: &R,
    alloc: Global,
    port: u16,
    name: u8,
) -> Result<TcpStream, Wrong> {
    let mut stream = open(rt, port)?;
    say(&mut stream, alloc, &frames::connect(name), &frames::CONNACK)?;
    Ok(stream)
}

/// A further client tries until it is served.
fn be_served<R: Net<Listener = TcpListener, Stream = TcpStream> + Clock>(
    rt: &R,
    alloc: Global,
    port: u16,
) -> Result<(), Wrong> {
    for _ in 0..TRIES {
        if served(rt, alloc, port, b'3').is_ok() {
            return Ok(());
        }
        thread::sleep(rt, Duration::from_millis(PAUSE));
    }
    Err(Wrong::Connects)
}

const FULL_PORT: u16 = 18_842;

/// Two clients have a session, and a third is told that the server is busy; it has one once one of the two has left.
#[derive(Drop)]
struct Full;

impl Day for Full {
    fn broker(&self) -> Listener {
        Listener {
            sessions: 2,
            ..Listener::at(FULL_PORT, 2)
        }
    }

    fn pass<R: Net<Listener = TcpListener, Stream = TcpStream> + Clock>(
        &self,
        rt: &R,
        alloc: Global,
        _closes: &AtomicBool,
    ) -> Result<Counts, Wrong> {
        let mut staying = served(rt, alloc, FULL_PORT, b'1')?;
        let mut leaving = served(rt, alloc, FULL_PORT, b'2')?;
        let mut third = open(rt, FULL_PORT)?;
        say(
            &mut third,
            alloc,
            &frames::connect(b'3'),
            &frames::SERVER_BUSY,
        )?;
        ends(&mut third)?;
        send(&mut leaving, b"\xE0\x00")?;
        ends(&mut leaving)?;
        be_served(rt, alloc, FULL_PORT)?;
        send(&mut staying, b"\xE0\x00")?;
        Ok(counts_of(0, 0, 0))
    }
}

#[test]
fn so_many_sessions_are_kept(rt: HostRuntime) {
    let night = live(&rt, rt.alloc(), &Full);
    assert_eq!(&rt; night.saw.map(|_| ()), Ok(()));
    assert!(rt; night.ended.is_ok());
    assert!(rt; night.output.as_slice() == b"listening 18842\n".as_slice());
}

#[test]
fn an_address_has_so_many_connections(rt: HostRuntime) {
    let night = live(&rt, rt.alloc(), &Bounded);
    assert_eq!(&rt; night.saw.map(|_| ()), Ok(()));
    assert!(rt; night.ended.is_ok());
    assert!(rt; night.output.as_slice() == b"listening 18837\n".as_slice());
}
