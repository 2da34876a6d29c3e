//! What a broker tells of itself while it runs: the text of its numbers, and answers over the loopback.

use bytes::Bytes;
use metrics::{
    MetricsServer, MetricsService, SharedCounts, TurnedAway, WorkerCounts, shared_counts,
};
use mqtt_packet::Text;
use mqtt_topic::Share;
use std::alloc::{AllocError, Global};
use std::io::{Read, Write};
use std::net::{Ipv4Addr, Net, SocketAddr, TcpStream};
use std::sync::Wait;
use std::sync::atomic::{AtomicBool, Ordering};
use std::test::Fail;
use std::time::Instant;
use std::{io, thread};

/// The share of this text, if it is one.
fn shares(alloc: Global, text: &'static str) -> Result<Vec<Share>, AllocError> {
    let mut shares = Vec::new(alloc);
    if let Some(text) = Text::parse(Bytes::from_static(text.as_bytes())) {
        if let Ok(share) = Share::parse(text) {
            shares.push(share)?;
        }
    }
    Ok(shares)
}

/// What two workers count of a group, of which one accepts and the other hands out; and of another group, whose share is not known.
fn count(workers: &[SharedCounts]) {
    let mut first = WorkerCounts::NONE;
    first.supply.groups[0].accepted = 7;
    first.supply.groups[0].full = 2;
    first.supply.groups[5].accepted = 1;
    first.turns = 3;
    let mut second = WorkerCounts::NONE;
    second.supply.groups[0].handed = 4;
    second.supply.groups[0].acknowledged = 1;
    second.opened = 2;
    second.served.stalled = 1;
    second.supply.sessions.begun = 1;
    second.connected = 1;
    for (worker, counts) in workers.iter().zip([first, second].iter()) {
        worker.store(counts);
    }
}

#[test]
fn numbers_as_text(rt: HostRuntime) -> Result<(), Fail> {
    let workers = shared_counts(rt.alloc(), 2)?;
    count(&workers);
    let shares = shares(rt.alloc(), "$share/a\"b/job\\\n")?;
    let service = MetricsService {
        rt: &rt,
        alloc: rt.alloc(),
        workers: &workers,
        shares: &shares,
        capacity: 10,
        turned_away: TurnedAway {
            of_address: 5,
            for_newcomer: 6,
            late: 8,
        },
    };
    let text = String::from_utf8(service.exposition()?)?;
    let lines: [&str; 15] = [
        "# HELP share_broker_jobs_queued Jobs that were never handed out.\n# TYPE share_broker_jobs_queued gauge\n",
        "\nshare_broker_jobs_accepted_total{group=\"$share/a\\\"b/job\\\\\\n\"} 7\n",
        "\nshare_broker_jobs_accepted_total{group=\"slot 5\"} 1\n",
        "\nshare_broker_jobs_not_accepted_total{group=\"$share/a\\\"b/job\\\\\\n\",reason=\"queue_full\"} 2\n",
        "\nshare_broker_jobs_settled_total{group=\"$share/a\\\"b/job\\\\\\n\",fate=\"acknowledged\"} 1\n",
        "\nshare_broker_jobs_queued{group=\"$share/a\\\"b/job\\\\\\n\"} 3\n",
        "\nshare_broker_jobs_held{group=\"$share/a\\\"b/job\\\\\\n\"} 3\n",
        "\nshare_broker_queue_room{group=\"$share/a\\\"b/job\\\\\\n\"} 7\n",
        "\nshare_broker_connections 1\n",
        "\nshare_broker_connections_connected 1\n",
        "\nshare_broker_connections_turned_away_total{reason=\"address\"} 5\n",
        "\nshare_broker_connections_turned_away_total{reason=\"newcomer\"} 6\n",
        "\nshare_broker_connections_turned_away_total{reason=\"late\"} 8\n",
        "\nshare_broker_sessions 1\n",
        "\nshare_broker_worker_turns_total{worker=\"0\"} 3\n",
    ];
    for line in lines {
        assert!(&rt; text.contains(line));
    }
    Ok(())
}

/// How many lines there are of this family, whose value is 0.
fn zeros(text: &str, family: &str) -> usize {
    text.lines()
        .filter(|line| line.starts_with(family) && line.ends_with(" 0"))
        .count()
}

// Each Reason Code that this broker sends in a packet has a line, also where it was not sent yet.
#[test]
fn answers_as_text(rt: HostRuntime) -> Result<(), Fail> {
    let workers = shared_counts(rt.alloc(), 1)?;
    let service = MetricsService {
        rt: &rt,
        alloc: rt.alloc(),
        workers: &workers,
        shares: &[],
        capacity: 10,
        turned_away: TurnedAway::NONE,
    };
    let text = String::from_utf8(service.exposition()?)?;
    let families: [(&str, usize); 4] = [
        ("share_broker_connacks_total{code=\"0x", 8),
        ("share_broker_pubacks_total{code=\"0x", 4),
        ("share_broker_subacks_total{code=\"0x", 5),
        ("share_broker_disconnects_total{code=\"0x", 10),
    ];
    for (family, count) in families {
        assert_eq!(&rt; zeros(&text, family), count);
    }
    assert!(&rt; text.contains("\nshare_broker_disconnects_total{code=\"0x8E\"} 0\n"));
    assert!(&rt; text.contains("\nshare_broker_sessions_taken_over_total 0\n"));
    Ok(())
}

// The share of a slot that is bound later is told by its text, once a worker has put that down; and only the first one counts.
#[test]
fn shares_that_clients_bind(rt: HostRuntime) -> Result<(), Fail> {
    let workers = shared_counts(rt.alloc(), 2)?;
    count(&workers);
    let bound = shares(rt.alloc(), "$share/later/x")?;
    let other = shares(rt.alloc(), "$share/other/x")?;
    for share in bound.iter().chain(other.iter()) {
        workers[1].store_share(5, share)?;
    }
    let service = MetricsService {
        rt: &rt,
        alloc: rt.alloc(),
        workers: &workers,
        shares: &[],
        capacity: 10,
        turned_away: TurnedAway::NONE,
    };
    let text = String::from_utf8(service.exposition()?)?;
    let lines: [&str; 2] = [
        "\nshare_broker_jobs_accepted_total{group=\"slot 0\"} 7\n",
        "\nshare_broker_jobs_accepted_total{group=\"$share/later/x\"} 1\n",
    ];
    for line in lines {
        assert!(&rt; text.contains(line));
    }
    assert!(&rt; !text.contains("$share/other"));
    Ok(())
}

/// All that is answered to this request.
fn asked<R: Net<Stream = TcpStream>>(
    rt: &R,
    alloc: Global,
    port: u16,
    request: &[u8],
) -> io::Result<Vec<u8>> {
    let address = SocketAddr::from((Ipv4Addr::LOCALHOST, port));
    let mut stream = TcpStream::connect(rt, address)?;
    stream.write_all(request)?;
    let mut answer = Vec::new(alloc);
    stream.read_to_end(&mut answer)?;
    Ok(answer)
}

#[test]
fn answers_over_the_loopback(rt: HostRuntime) -> Result<(), Fail> {
    let workers = shared_counts(rt.alloc(), 1)?;
    let mut service = MetricsService {
        rt: &rt,
        alloc: rt.alloc(),
        workers: &workers,
        shares: &[],
        capacity: 10,
        turned_away: TurnedAway::NONE,
    };
    let mut server = MetricsServer::open(&rt, rt.alloc(), Ipv4Addr::LOCALHOST, 0)?;
    let port = server.port();
    let stop = AtomicBool::new(false);
    let mut serving = || {
        for _ in rt.forever() {
            let Ok(now) = Instant::now(&rt) else {
                return;
            };
            if stop.load(Ordering::SeqCst) {
                return;
            }
            let _patience = server.go_on(&mut service, now);
            thread::yield_now();
        }
    };
    let mut answers = Vec::new(rt.alloc());
    let mut asking = || {
        let requests: [&[u8]; 4] = [
            b"GET /metrics HTTP/1.1\r\nHost: h\r\nConnection: close\r\n\r\n",
            b"PUT / HTTP/1.1\r\nHost: h\r\nConnection: close\r\n\r\n",
            b"GET /other HTTP/1.1\r\nHost: h\r\nConnection: close\r\n\r\n",
            b"GET /\r\n\r\n",
        ];
        for request in requests {
            if let Ok(answer) = asked(&rt, rt.alloc(), port, request) {
                let _no_memory = answers.push(answer);
            }
        }
        stop.store(true, Ordering::SeqCst);
    };
    thread::join_mut(&rt, &mut serving, &mut asking);
    let wanted: [&str; 4] = [
        "HTTP/1.1 200",
        "HTTP/1.1 405",
        "HTTP/1.1 404",
        "HTTP/1.1 400",
    ];
    assert_eq!(&rt; answers.len(), 4);
    for (answer, start) in answers.iter().zip(wanted.iter()) {
        assert!(&rt; answer.starts_with(start.as_bytes()));
    }
    Ok(())
}
