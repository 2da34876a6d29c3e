//! A broker that limits the Session Expiry Interval and the keep alive of its clients.
use crate::day::{Counts, Day, Listener, live};
use crate::link::{ends, gets, open, say};
use crate::loopback::clients::counts_of;
use crate::loopback::frames;
use crate::wrong::Wrong;
use conn_rules::{ClientLimits, ExpiryLimit, KeepAliveLimit, MaxInflight};
use std::alloc::Global;
use std::net::{Net, TcpListener, TcpStream};
use std::rt::Clock;
use std::sync::atomic::AtomicBool;
use std::thread;
use std::time::Duration;

const PORT: u16 = 18_839;

/// The CONNACK of a new session that lives for one second after its connection, of a client whose keep alive is one second.
const LIMITED: [u8; 22] =
    *b"\x20\x14\x00\x00\x11\x11\x00\x00\x00\x01\x13\x00\x01\x24\x01\x25\x00\x27\x00\x01\x00\x00";

/// The DISCONNECT of a client that was silent for too long.
const SILENT: [u8; 3] = *b"\xE0\x01\x8D";

/// In so many milliseconds the session of a client that has gone is over.
const OVER: u64 = 1_500;

/// A client that asks for a session of an hour and a keep alive of a minute is given a second of both, and is told so: its connection ends when it is silent, and its session after it.
#[derive(Drop)]
struct Limited;

impl Day for Limited {
    fn broker(&self) -> Listener {
        let limits = ClientLimits {
            max_expiry: ExpiryLimit::new(1),
            max_keep_alive: KeepAliveLimit::new(1),
            ..ClientLimits::inflight_alone(MaxInflight::most())
        };
        Listener {
            limits,
            ..Listener::at(PORT, 2)
        }
    }

    fn pass<R: Net<Listener = TcpListener, Stream = TcpStream> + Clock>(
        &self,
        rt: &R,
        alloc: Global,
        _closes: &AtomicBool,
    ) -> Result<Counts, Wrong> {
        let mut silent = open(rt, PORT)?;
        say(&mut silent, alloc, &frames::CONNECT_FOR_AN_HOUR, &LIMITED)?;
        gets(&mut silent, alloc, &SILENT)?;
        ends(&mut silent)?;
        thread::sleep(rt, Duration::from_millis(OVER));
        let mut again = open(rt, PORT)?;
        say(&mut again, alloc, &frames::CONNECT_FOR_AN_HOUR, &LIMITED)?;
        Ok(counts_of(0, 0, 0))
    }
}

#[test]
fn no_client_has_more_than_its_limits(rt: HostRuntime) {
    let night = live(&rt, rt.alloc(), &Limited);
    assert_eq!(&rt; night.saw.map(|_| ()), Ok(()));
    assert!(rt; night.ended.is_ok());
    assert!(rt; night.output.as_slice() == b"listening 18839\n".as_slice());
}
