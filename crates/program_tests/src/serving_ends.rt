//! How `serve` ends without a client: its status, and what then stands in the output and on the error output.
use crate::asserting::{assert_items, assert_same, assert_same_at};
use crate::devices::Broken;
use crate::running::{Ended, has, ran};
use std::alloc::Global;
use std::net::{Ipv4Addr, Net, SocketAddr, TcpListener, TcpStream};
use std::random::RandomSource;
use std::rt::{Clock, Files};
use std::sync::Wait;
use std::test::Fail;
use std::thread::Threads;

/// What a broker says whose input has ended before it reads it.
const AT_ITS_END: &str =
    "error: standard input is at its end already, so the broker closes; --until killed serves until it is killed\n";

/// A broker whose input has ended and whose messages are all settled closes at once, and has written the port that it listened at and the report of its group.
#[test]
fn serving_ends(rt: HostRuntime) -> Result<(), Fail> {
    let lines = [
        "share_broker serve --port 0 --workers 1 --group g:job",
        "share_broker serve --port 0 --workers 1 --group g:job --drain 86400",
    ];
    let report =
        "\n$share/g/job accepted 0 acknowledged 0 refused 0 held 0 queued 0 returned 0 discarded 0\n";
    for line in lines.iter() {
        let ended = ran(&rt, rt.alloc(), line, &mut &b""[..])?;
        assert_same_at(&rt, &ended.status, &0, line);
        assert_same_at(&rt, &ended.output.starts_with(b"listening "), &true, line);
        assert_same_at(&rt, &has(&ended.output, report), &true, line);
        assert_items(&rt, ended.errors.as_slice(), AT_ITS_END.as_bytes());
    }
    Ok(())
}

/// What a log has of a broker whose input has ended: all that it does, in order, and nothing else.
#[test]
fn serving_with_a_log(rt: HostRuntime) -> Result<(), Fail> {
    let line =
        "share_broker serve --port 0 --workers 1 --group g:job --group h:# --drain 60 --log info";
    let said = "\
info: the share \"$share/g/job\" is bound to slot 0
info: the share \"$share/h/#\" is bound to slot 1
error: standard input is at its end already, so the broker closes; --until killed serves until it is killed
info: standard input has ended
info: the broker drains for 60 seconds at most
info: drained: each job that was accepted is settled
info: the broker closes
";
    let ended = ran(&rt, rt.alloc(), line, &mut &b""[..])?;
    assert_same(&rt, &ended.status, &0);
    assert_items(&rt, ended.errors.as_slice(), said.as_bytes());
    Ok(())
}

/// A broker whose input fails says so where it is to say what went wrong, before the line of the error.
#[test]
fn serving_whose_input_fails(rt: HostRuntime) -> Result<(), Fail> {
    let rows = [
        ("share_broker serve --port 0 --workers 1", "device\n"),
        (
            "share_broker serve --port 0 --workers 1 --log error",
            "error: standard input failed\ndevice\n",
        ),
    ];
    for (line, said) in rows.iter() {
        let ended = ran(&rt, rt.alloc(), line, &mut Broken)?;
        assert_same_at(&rt, &ended.status, &3, line);
        assert_items(&rt, ended.errors.as_slice(), said.as_bytes());
    }
    Ok(())
}

/// A broker that is to serve until it is killed ends where its address is not to be had, and has read nothing.
#[test]
fn serving_until_killed_fails(rt: HostRuntime) -> Result<(), Fail> {
    let line = "share_broker serve --port 0 --address 203.0.113.1 --until killed";
    let input = b"C000\n".as_slice();
    let mut reader = input;
    let ended = ran(&rt, rt.alloc(), line, &mut reader)?;
    assert_same(&rt, &ended.status, &3);
    assert_same(&rt, &reader.len(), &input.len());
    assert_same(&rt, &ended.output.len(), &0);
    assert_items(
        &rt,
        ended.errors.as_slice(),
        "device: the address is not one of this machine\n".as_bytes(),
    );
    Ok(())
}

/// How a broker ends whose words name a port behind these that another listener has.
fn ran_at_taken_port<
    H: Threads
        + Wait
        + Net<Listener = TcpListener, Stream = TcpStream>
        + Clock
        + Files
        + RandomSource
        + Sync,
>(rt: &H, alloc: Global, words: &str) -> Option<Ended> {
    let listener = TcpListener::bind(rt, SocketAddr::from((Ipv4Addr::LOCALHOST, 0))).ok()?;
    let port = listener.local_addr().ok()?.port();
    let line = format!(in alloc; "{words} {port}").ok()?;
    ran(rt, alloc, line.as_str(), &mut Broken).ok()
}

/// A broker is told which of its ports is in use.
#[test]
fn a_port_in_use(rt: HostRuntime) {
    let rows = [
        ("share_broker serve --port", "device: the port is in use\n"),
        (
            "share_broker serve --port 0 --metrics",
            "device: the port of the metrics is in use\n",
        ),
    ];
    for (words, said) in rows.iter() {
        let ended = ran_at_taken_port(&rt, rt.alloc(), words).expect(&rt, "a listener");
        assert_same_at(&rt, &ended.status, &3, words);
        assert_same(&rt, &ended.output.len(), &0);
        assert_items(&rt, ended.errors.as_slice(), said.as_bytes());
    }
}
