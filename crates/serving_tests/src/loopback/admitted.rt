//! A broker that has users: whoever is none of them is refused, nobody is taken over by who is refused, and a user may do what its lines say.
use crate::day::{Counts, Day, Listener, live};
use crate::link::{ends, open, say};
use crate::loopback::clients::counts_of;
use crate::loopback::frames;
use crate::wrong::Wrong;
use std::alloc::Global;
use std::net::{Net, TcpListener, TcpStream};
use std::rt::Clock;
use std::sync::atomic::AtomicBool;

const PORT: u16 = 18_840;

/// A file of users: press7, whose password is `open sesame`, and who may publish to `job` and connect as w1.
const USERS: &[u8] = b"# a comment\n\
    press7:$7$10$AQIDBAUGBwgJCgsM$4o4oVOQc3kuWVK9po0nV9JH3cEsbqx/cxRP6Aqi8D38nq6K70hf2Ghc8l9jl/951eF8bLfFdfJb8xQxaBhOLTw==\n  publish job\n  client w1\n";

/// A CONNECT of the client w1 as press7, with that password, and with another one of as many bytes.
const RIGHT: [u8; 38] =
    *b"\x10\x24\x00\x04MQTT\x05\xC2\x00\x3C\x00\x00\x02w1\x00\x06press7\x00\x0Bopen sesame";

const WRONG: [u8; 38] =
    *b"\x10\x24\x00\x04MQTT\x05\xC2\x00\x3C\x00\x00\x02w1\x00\x06press7\x00\x0Bopen season";

/// One of another user with the password of press7, and one of press7 with no password.
const UNKNOWN: [u8; 38] =
    *b"\x10\x24\x00\x04MQTT\x05\xC2\x00\x3C\x00\x00\x02w1\x00\x06press8\x00\x0Bopen sesame";

const NO_PASSWORD: [u8; 25] = *b"\x10\x17\x00\x04MQTT\x05\x82\x00\x3C\x00\x00\x02w1\x00\x06press7";

/// The CONNACK that says so.
const REFUSED: [u8; 5] = *b"\x20\x03\x00\x86\x00";

/// A CONNECT of the client w2 as press7, and the CONNACK that it is not allowed.
const OTHER_IDENTIFIER: [u8; 38] =
    *b"\x10\x24\x00\x04MQTT\x05\xC2\x00\x3C\x00\x00\x02w2\x00\x06press7\x00\x0Bopen sesame";

const NOT_ALLOWED: [u8; 5] = *b"\x20\x03\x00\x85\x00";

/// A PUBLISH to `job` with its PUBACK, one to `jobs` with that of 87, and a SUBSCRIBE with its SUBACK of 87.
const PUBLISH: [u8; 11] = *b"\x32\x09\x00\x03job\x00\x01\x00x";

const NOBODY: [u8; 5] = *b"\x40\x03\x00\x01\x10";

const PUBLISH_BEYOND: [u8; 12] = *b"\x32\x0A\x00\x04jobs\x00\x02\x00x";

const NOT_AUTHORIZED: [u8; 5] = *b"\x40\x03\x00\x02\x87";

const SUBSCRIBE: [u8; 20] = *b"\x82\x12\x00\x03\x00\x00\x0C$share/g/job\x01";

const NOT_JOINED: [u8; 6] = *b"\x90\x04\x00\x03\x00\x87";

/// A user is served, and goes on while others ask for its client's session.
#[derive(Drop)]
struct Users;

impl Day for Users {
    fn broker(&self) -> Listener {
        Listener {
            users: Some(USERS),
            ..Listener::at(PORT, 2)
        }
    }

    fn pass<R: Net<Listener = TcpListener, Stream = TcpStream> + Clock>(
        &self,
        rt: &R,
        alloc: Global,
        _closes: &AtomicBool,
    ) -> Result<Counts, Wrong> {
        let mut user = open(rt, PORT)?;
        say(&mut user, alloc, &RIGHT, &frames::CONNACK)?;
        refused(rt, alloc, &WRONG, &REFUSED)?;
        refused(rt, alloc, &UNKNOWN, &REFUSED)?;
        refused(rt, alloc, &NO_PASSWORD, &REFUSED)?;
        refused(rt, alloc, &frames::connect(b'1'), &REFUSED)?;
        refused(rt, alloc, &OTHER_IDENTIFIER, &NOT_ALLOWED)?;
        say(&mut user, alloc, &PUBLISH, &NOBODY)?;
        say(&mut user, alloc, &PUBLISH_BEYOND, &NOT_AUTHORIZED)?;
        say(&mut user, alloc, &SUBSCRIBE, &NOT_JOINED)?;
        say(&mut user, alloc, b"\xC0\x00", b"\xD0\x00")?;
        Ok(counts_of(0, 0, 0))
    }
}

/// A client that says this is refused by that CONNACK, and its connection ends.
fn refused<R: Net<Listener = TcpListener, Stream = TcpStream> + Clock>(
    rt: &R,
    alloc: Global,
    connect: &[u8],
    connack: &[u8],
) -> Result<(), Wrong> {
    let mut client = open(rt, PORT)?;
    say(&mut client, alloc, connect, connack)?;
    ends(&mut client)
}

#[test]
fn none_but_users_are_served(rt: HostRuntime) {
    let night = live(&rt, rt.alloc(), &Users);
    assert_eq!(&rt; night.saw.map(|_| ()), Ok(()));
    assert!(rt; night.ended.is_ok());
    assert!(rt; night.output.as_slice() == b"listening 18840\n".as_slice());
}
