//! Words, and what they ask for.
use crate::asserting::assert_text;
use arguments::{Request, ServeOptions, arguments};
use conn_rules::{MaxInflight, QueueCapacity, Setup};
use mqtt_topic::Routes;
use std::alloc::{AllocError, Global};
use std::test::Fail;

/// The words of a line, cut at each blank.
pub(crate) fn words_of(alloc: Global, line: &str) -> Result<Vec<String>, AllocError> {
    let mut words = Vec::new(alloc);
    for word in line.split(' ') {
        words.push(String::from_str(alloc, word)?)?;
    }
    Ok(words)
}

/// What a line asks for: the command, and of `serve` what it has of its own; the capacity, the limit of unacknowledged messages and the shares; of `hash-password` the name and the iterations; or the status of its
/// fault.
pub(crate) fn asked(alloc: Global, line: &str) -> Result<String, AllocError> {
    let words = words_of(alloc, line)?;
    match arguments(alloc, &words) {
        Ok(Request::Solo(setup)) => server(alloc, "solo", &setup),
        Ok(Request::Drive(setup)) => server(alloc, "drive", &setup),
        Ok(Request::Serve(service)) => broker(alloc, &service),
        Ok(Request::HashPassword(password)) => format!(in alloc;
            "hash-password {} {}",
            password.name.as_str(),
            password.iterations
        ),
        Err(error) => format!(in alloc; "{}", error.exit_code()),
    }
}

/// What `solo` or `drive` begins with.
fn server(alloc: Global, command: &str, setup: &Setup) -> Result<String, AllocError> {
    told(
        alloc,
        command,
        setup.capacity,
        setup.max_inflight,
        &setup.groups,
    )
}

/// What `serve` begins with: the address, the port, the workers, until when, the time to drain, the port of metrics, the level of its log, how many sessions are kept, whether parked ones are, whether
/// groups are to be declared, how many connections an address may have, the longest expiry and keep alive, and the file with its users.
fn broker(alloc: Global, service: &ServeOptions) -> Result<String, AllocError> {
    let kept = if service.keep_parked { " kept" } else { "" };
    let sessions = match service.sessions {
        256 => String::new(alloc),
        most => format!(in alloc; " {most} sessions")?,
    };
    let declared = if service.declared_groups {
        " declared"
    } else {
        ""
    };
    let each = match service.per_address {
        0 => String::new(alloc),
        most => format!(in alloc; " {most} each")?,
    };
    let limits = limited(alloc, service)?;
    let command = format!(in alloc;
        "serve {}:{} {} {:?} {} {} {:?}{sessions}{kept}{declared}{each}{limits}",
        service.address,
        service.port,
        service.workers,
        service.until,
        service.drain,
        service.metrics,
        service.log
    )?;
    told(
        alloc,
        command.as_str(),
        service.capacity,
        service.max_inflight,
        &service.groups,
    )
}

/// The longest expiry and the longest keep alive, where they are limited, and the file with the users, where there is one.
fn limited(alloc: Global, service: &ServeOptions) -> Result<String, AllocError> {
    let expiry = match service.max_expiry {
        Some(seconds) => format!(in alloc; " expiry {}", seconds.get())?,
        None => String::new(alloc),
    };
    let limits = match service.max_keep_alive {
        Some(seconds) => format!(in alloc; "{expiry} alive {}", seconds.get())?,
        None => expiry,
    };
    match &service.users {
        Some(file) => format!(in alloc; "{limits} users {}", file.as_str()),
        None => Ok(limits),
    }
}

/// A command, and what its server begins with: the shares in the order of their slots.
fn told(
    alloc: Global,
    command: &str,
    capacity: QueueCapacity,
    max_inflight: MaxInflight,
    groups: &Routes,
) -> Result<String, AllocError> {
    let mut text = format!(in alloc; "{command} {} {}", capacity.get(), max_inflight.get())?;
    for share in groups.shares() {
        text.push(' ')?;
        text.push_str(std::str::from_utf8(share.text()).unwrap_or("no text"))?;
    }
    Ok(text)
}

#[test]
fn what_words_ask_for(rt: HostRuntime) -> Result<(), Fail> {
    let rows = [
        ("share_broker solo", "solo 1024 256"),
        (
            "share_broker solo --capacity 2 --group g:job",
            "solo 2 256 $share/g/job",
        ),
        ("share_broker drive", "drive 1024 256"),
        ("share_broker drive --capacity 1", "drive 1 256"),
        ("share_broker drive --max-inflight 1", "drive 1024 1"),
        (
            "share_broker solo --max-inflight 256 --capacity 2",
            "solo 2 256",
        ),
        (
            "share_broker drive --group g:job --max-inflight=2",
            "drive 1024 2 $share/g/job",
        ),
        (
            "share_broker drive --capacity 65536 --group g:job",
            "drive 65536 256 $share/g/job",
        ),
        (
            "share_broker drive --group g:job --group h:# --group g:a:b",
            "drive 1024 256 $share/g/job $share/h/# $share/g/a:b",
        ),
        (
            "share_broker drive --group a:8 --group a:7 --group a:6 --group a:5 --group a:4 --group a:3 --group a:2 --group a:1",
            "drive 1024 256 $share/a/8 $share/a/7 $share/a/6 $share/a/5 $share/a/4 $share/a/3 $share/a/2 $share/a/1",
        ),
        // faults
        (
            "share_broker drive --group a:1 --group a:2 --group a:3 --group a:4 --group a:5 --group a:6 --group a:7 --group a:8 --group a:9",
            "2",
        ),
        ("share_broker", "2"),
        ("share_broker job", "2"),
        ("share_broker solo drive", "2"),
        ("share_broker solo --port 1", "2"),
        ("share_broker solo --capacity 0", "2"),
        ("share_broker solo --group job", "2"),
        ("share_broker drive --capacity 0", "2"),
        ("share_broker drive --capacity 65537", "2"),
        ("share_broker drive --capacity one", "2"),
        ("share_broker drive --max-inflight 0", "2"),
        ("share_broker drive --max-inflight 257", "2"),
        ("share_broker solo --max-inflight two", "2"),
        ("share_broker solo --max-inflight 1 --max-inflight 1", "2"),
        ("share_broker drive --capacity 1 --capacity 1", "2"),
        ("share_broker drive --group job", "2"),
        ("share_broker drive --group :job", "2"),
        ("share_broker drive --group g:", "2"),
        ("share_broker drive --group g:a#", "2"),
        ("share_broker drive --group g:job --group g:job", "2"),
        ("share_broker --help", "0"),
        ("share_broker drive --help", "0"),
        ("share_broker --version", "0"),
    ];
    for (line, expected) in rows.iter() {
        let asked = asked(rt.alloc(), line)?;
        assert_text(&rt, asked.as_str(), *expected);
    }
    Ok(())
}

#[test]
fn what_words_of_hash_password_ask_for(rt: HostRuntime) -> Result<(), Fail> {
    let rows = [
        (
            "share_broker hash-password worker",
            "hash-password worker 1000",
        ),
        (
            "share_broker hash-password --iterations 1000000 worker-7",
            "hash-password worker-7 1000000",
        ),
        (
            "share_broker hash-password --iterations=1 -- -worker",
            "hash-password -worker 1",
        ),
        // faults
        ("share_broker hash-password", "2"),
        ("share_broker hash-password a:b", "2"),
        ("share_broker hash-password #worker", "2"),
        ("share_broker hash-password ", "2"),
        ("share_broker hash-password worker secret", "2"),
        ("share_broker hash-password worker --iterations 0", "2"),
        (
            "share_broker hash-password worker --iterations 1000001",
            "2",
        ),
        ("share_broker hash-password worker --iterations", "2"),
        (
            "share_broker hash-password worker --iterations 1 --iterations 1",
            "2",
        ),
        ("share_broker hash-password worker --capacity 1", "2"),
        ("share_broker hash-password --help", "0"),
        ("share_broker help hash-password", "0"),
    ];
    for (line, expected) in rows.iter() {
        let asked = asked(rt.alloc(), line)?;
        assert_text(&rt, asked.as_str(), *expected);
    }
    Ok(())
}
