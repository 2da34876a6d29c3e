//! A broker that has the groups that were declared, and no other.
use crate::day::{Counts, Day, Listener, live};
use crate::link::{gets, open, say, send};
use crate::loopback::clients::counts_of;
use crate::loopback::frames;
use crate::wrong::Wrong;
use shared_routes::NewShares;
use std::alloc::Global;
use std::net::{Net, TcpListener, TcpStream};
use std::rt::Clock;
use std::sync::atomic::AtomicBool;

const PORT: u16 = 18_836;

/// A client asks for two groups, of which the second is declared: it joins that one, and is handed a job of it.
#[derive(Drop)]
struct Declared;

impl Day for Declared {
    fn broker(&self) -> Listener {
        Listener {
            new_shares: NewShares::Refused,
            ..Listener::at(PORT, 2)
        }
    }

    fn pass<R: Net<Listener = TcpListener, Stream = TcpStream> + Clock>(
        &self,
        rt: &R,
        alloc: Global,
        _closes: &AtomicBool,
    ) -> Result<Counts, Wrong> {
        let mut member = open(rt, PORT)?;
        say(&mut member, alloc, &frames::connect(b'1'), &frames::CONNACK)?;
        say(
            &mut member,
            alloc,
            &frames::SUBSCRIBE_TWO,
            &frames::ONE_AUTHORIZED,
        )?;
        say(&mut member, alloc, &frames::PUBLISH, &frames::PUBACK)?;
        gets(&mut member, alloc, &frames::JOB)?;
        send(&mut member, b"\x40\x02\x00\x01")?;
        say(&mut member, alloc, b"\xC0\x00", b"\xD0\x00")?;
        Ok(counts_of(1, 1, 0))
    }
}

#[test]
fn a_group_that_is_not_declared_is_refused(rt: HostRuntime) {
    let night = live(&rt, rt.alloc(), &Declared);
    assert_eq!(&rt; night.is_as_seen(rt.alloc()), Ok(()));
    let text =
        b"listening 18836\n$share/g/job accepted 1 acknowledged 1 refused 0 held 0 queued 0 returned 0 discarded 0\n";
    assert!(rt; night.output.as_slice() == text.as_slice());
}
