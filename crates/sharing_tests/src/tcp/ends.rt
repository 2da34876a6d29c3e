//! A reactor tells of the end of a stream.
use crate::asserting::assert_same;
use std::net::{Ipv4Addr, SocketAddr, TcpStream};
use std::test::Fail;
use std::time::Duration;
use tcp_edge::{Reactor, TcpSource};
use transport::{Arrival, Source};

#[test]
fn an_end_is_told(rt: HostRuntime) -> Result<(), Fail> {
    let mut source = TcpSource::open(&rt, Ipv4Addr::LOCALHOST, 0)?;
    let address = SocketAddr::from((Ipv4Addr::LOCALHOST, source.port()));
    let peer = TcpStream::connect(&rt, address)?;
    let Arrival::Came(mut socket) = source.next() else {
        panic!(rt; "nobody came");
    };
    let (mut reactor, _alarm) = Reactor::open(&rt, rt.alloc())?;
    let number = reactor.register(&mut socket)?;
    let _rang = reactor.wait(&rt, Duration::from_secs(50))?;
    let first = reactor.take_ready().expect(&rt, "it may be written");
    assert_same(&rt, &first.number, &number);
    assert!(rt; first.writable && !first.readable && !first.closed);
    drop(peer);
    let _rang = reactor.wait(&rt, Duration::from_secs(50))?;
    let second = reactor.take_ready().expect(&rt, "it has ended");
    assert_same(&rt, &second.number, &number);
    assert!(rt; second.readable && second.closed);
    assert!(rt; reactor.take_ready().is_none());
    Ok(())
}
