//! What a source gives besides connections: its end, and that it is short of something.
use crate::asserting::assert_same;
use std::io::Error;
use std::net::{Ipv4Addr, SocketAddr, TcpStream};
use std::sync::atomic::{AtomicBool, Ordering};
use std::test::Fail;
use tcp_edge::{Socket, TcpSource, Until, not_accepted};
use transport::{Arrival, Source};

#[test]
fn a_source_ends_once_its_flag_is_set(rt: HostRuntime) -> Result<(), Fail> {
    let source = TcpSource::open(&rt, Ipv4Addr::LOCALHOST, 0)?;
    let address = SocketAddr::from((Ipv4Addr::LOCALHOST, source.port()));
    let closes = AtomicBool::new(false);
    let mut until = Until::new(source, &closes);
    assert!(rt; matches!(until.next(), Arrival::Idle));
    let _first = TcpStream::connect(&rt, address)?;
    assert!(rt; matches!(until.next(), Arrival::Came(_)));
    let _second = TcpStream::connect(&rt, address)?;
    closes.store(true, Ordering::SeqCst);
    assert!(rt; matches!(until.next(), Arrival::End));
    assert!(rt; matches!(until.next(), Arrival::End));
    assert_same(&rt, &(until.arrivals(), until.failures()), &(1, 0));
    assert!(rt; matches!(until.into_source().next(), Arrival::Came(_)));
    Ok(())
}

#[test]
fn a_source_listens_at_its_address(rt: HostRuntime) -> Result<(), Fail> {
    let other = Ipv4Addr::new(127, 0, 0, 2);
    let mut source = TcpSource::open(&rt, other, 0)?;
    let address = SocketAddr::from((other, source.port()));
    let _peer = TcpStream::connect(&rt, address)?;
    assert!(rt; matches!(source.next(), Arrival::Came(_)));
    Ok(())
}

/// What a refusal of the system with this number of errno means.
fn refused(number: i32) -> Option<Arrival<Socket<mio::net::TcpStream>>> {
    not_accepted(&Error::from_raw_os_error(number))
}

#[test]
fn a_listener_that_is_short_of_something_is_idle(rt: HostRuntime) -> Result<(), Fail> {
    // ENOMEM, ENFILE, EMFILE, ENOBUFS
    for number in [12, 23, 24, 105] {
        assert!(rt; matches!(refused(number), Some(Arrival::Idle)));
    }
    // ECONNABORTED: it was gone already
    assert!(rt; refused(103).is_none());
    // EBADF
    assert!(rt; matches!(refused(9), Some(Arrival::Failed)));
    Ok(())
}
