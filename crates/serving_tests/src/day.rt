//! A broker that is served while its clients do something.
ghost use Rattle.std.specs.Prelude.{◌≤◌};

use crate::wrong::Wrong;
use broker_log::{Level, Log};
use bytes::Bytes;
use conn_rules::{ClientLimits, MaxInflight};
use limits::DEFAULT_SESSIONS;
use mqtt_packet::Text;
use mqtt_topic::{Routes, Share};
use session_desk::Newcomers;
use shared_routes::NewShares;
use std::alloc::Global;
use std::io::Read;
use std::net::{Ipv4Addr, Net, TcpListener, TcpStream};
use std::rt::Clock;
use std::sync::Wait;
use std::sync::atomic::{AtomicBool, Ordering};
use std::thread::Threads;
use std::time::Duration;
use std::{io, thread};
use tcp_server::{ListenAt, ServeSettings, serve_at};
use text_io::RunError;
use users::{SharedUsers, Users};

/// For how many milliseconds a read waits before it looks again, and how often it looks at most.
const PAUSE: u64 = 5;

const LOOKS: u32 = 10_000;

/// An input without a byte, which ends once the flag is set, or after 50 seconds.
#[derive(Drop)]
struct Held<'a, R> {
    rt: &'a R,
    ends: &'a AtomicBool,
}

impl<'a, R: Clock> Read for Held<'a, R> {
    fn read(&mut self, _buf: &mut [u8]) -> io::Result<usize> {
        for _ in 0..LOOKS {
            if self.ends.load(Ordering::SeqCst) {
                return Ok(0);
            }
            thread::sleep(self.rt, Duration::from_millis(PAUSE));
        }
        Ok(0)
    }
}

/// What the clients saw of the jobs of `$share/g/job`: how many were accepted, how many of them were acknowledged, and how many sessions have.
#[derive(Clone, Copy)]
pub(crate) struct Counts {
    pub(crate) accepted: u64,
    pub(crate) acknowledged: u64,
    pub(crate) held: u64,
}

/// Where a broker listens, how many workers it has, for how many seconds it drains at most, what its clients are granted at most, the file of its users, if there is one, what it does with shares that are
/// not declared, how many connections an address may have, 0 for any number, and how many sessions are kept. Where it refuses shares, `$share/g/job` is declared.
#[derive(Drop)]
pub(crate) struct Listener {
    pub(crate) port: u16,
    pub(crate) workers: u8,
    pub(crate) drain: u32,
    pub(crate) limits: ClientLimits,
    pub(crate) users: Option<&'static [u8]>,
    pub(crate) new_shares: NewShares,
    pub(crate) per_address: u32,
    pub(crate) sessions: u32,
}

impl Listener {
    /// One with so many workers, which does not drain, limits its clients to 256 messages, binds what clients ask for, takes any number of connections and keeps 256 sessions.
    pub(crate) fn at(port: u16, workers: u8) -> Listener {
        Listener {
            port,
            workers,
            drain: 0,
            limits: ClientLimits::inflight_alone(MaxInflight::most()),
            users: None,
            new_shares: NewShares::Bound,
            per_address: 0,
            sessions: DEFAULT_SESSIONS,
        }
    }
}

/// What clients do.
pub(crate) trait Day: Sync {
    /// Where the broker listens.
    fn broker(&self) -> Listener;

    /// Does it; the broker closes once the flag is set, or this returns. What they saw.
    fn pass<R: Net<Listener = TcpListener, Stream = TcpStream> + Clock>(
        &self,
        rt: &R,
        alloc: Global,
        closes: &AtomicBool,
    ) -> Result<Counts, Wrong>;
}

/// What came of a day: what clients saw, how serving ended, and what was written.
#[derive(Drop)]
pub(crate) struct Night {
    pub(crate) saw: Result<Counts, Wrong>,
    pub(crate) ended: Result<(), RunError>,
    pub(crate) output: Vec<u8>,
}

/// Serves for a day.
pub(crate) fn live<
    R: Threads + Wait + Net<Listener = TcpListener, Stream = TcpStream> + Clock + Sync,
    D: Day,
>(rt: &R, alloc: Global, day: &D) -> Night {
    let closes = AtomicBool::new(false);
    let closes = &closes;
    let (saw, (ended, output)) = thread::join(
        rt,
        || pass(rt, alloc, day, closes),
        || serve(rt, alloc, day.broker(), closes),
    );
    Night { saw, ended, output }
}

/// What clients do, and the flag after it.
fn pass<R: Net<Listener = TcpListener, Stream = TcpStream> + Clock, D: Day>(
    rt: &R,
    alloc: Global,
    day: &D,
    closes: &AtomicBool,
) -> Result<Counts, Wrong> {
    let saw = day.pass(rt, alloc, closes);
    closes.store(true, Ordering::SeqCst);
    saw
}

/// The same limits with the users of that file, if there is one; with none, where it is at fault or an allocation fails.
fn with_users(alloc: Global, mut limits: ClientLimits, text: Option<&[u8]>) -> ClientLimits {
    limits.users = text.and_then(|text| users_in(alloc, text));
    limits
}

/// The users of that file; `None` where it is at fault, or an allocation fails.
fn users_in(alloc: Global, text: &[u8]) -> Option<SharedUsers> {
    Users::parse(alloc, text).ok()?.into_shared(alloc).ok()
}

/// Serves until the flag is set. How it ended, and what was written.
fn serve<'a, R: Threads + Wait + Net<Listener = TcpListener, Stream = TcpStream> + Clock + Sync>(
    rt: &'a R,
    alloc: Global,
    broker: Listener,
    closes: &'a AtomicBool,
) -> (Result<(), RunError>, Vec<u8>) {
    let Listener {
        port,
        workers,
        drain,
        limits,
        users,
        new_shares,
        per_address,
        sessions,
    } = broker;
    let settings = ServeSettings {
        capacity: 64,
        workers: workers.clamp(1, 64),
        limits: with_users(alloc, limits, users),
        drain,
        newcomers: Newcomers::Displace(sessions),
        new_shares,
        per_address,
    };
    let at = ListenAt {
        address: Ipv4Addr::LOCALHOST,
        port,
        metrics: 0,
    };
    let mut input = Held { rt, ends: closes };
    let mut output = Vec::new(alloc);
    let (Ok(log), Some(groups)) = (Log::open(alloc, Level::Off), groups_of(alloc, new_shares))
    else {
        return (Err(RunError::Memory), output);
    };
    let ended = serve_at(
        rt,
        alloc,
        settings,
        &groups,
        at,
        &log,
        &mut input,
        &mut output,
    );
    (ended, output)
}

/// The groups that are there from the start.
fn groups_of(alloc: Global, new_shares: NewShares) -> Option<Routes> {
    let mut groups = Routes::new(alloc);
    if new_shares == NewShares::Refused {
        let text = Text::parse(Bytes::from_static(b"$share/g/job"))?;
        groups.bind(Share::parse(text).ok()?).ok()?;
    }
    Some(groups)
}

/// The numbers that stand in a text.
fn numbers_of(alloc: Global, text: &[u8]) -> Result<Vec<u64>, Wrong> {
    let mut numbers = Vec::new(alloc);
    let mut number = None;
    for byte in text {
        if byte.is_ascii_digit() {
            let digit = u64::from(byte.wrapping_sub(b'0'));
            number = Some(
                number
                    .unwrap_or(0u64)
                    .saturating_mul(10)
                    .saturating_add(digit),
            );
        } else if let Some(whole) = number {
            numbers.push(whole).ok().ok_or(Wrong::Memory)?;
            number = None;
        }
    }
    Ok(numbers)
}

impl Night {
    /// Whether all went well, and the report of `$share/g/job` is that of what the clients saw: each accepted job has one fate, and none was refused or discarded.
    pub(crate) fn is_as_seen(&self, alloc: Global) -> Result<(), Wrong> {
        let saw = self.saw?;
        if self.ended.is_err() {
            return Err(Wrong::Served);
        }
        let numbers = numbers_of(alloc, self.output.as_slice())?;
        let [
            _port,
            accepted,
            acknowledged,
            refused,
            held,
            queued,
            returned,
            discarded,
        ] = numbers.as_slice()
        else {
            return Err(Wrong::Report);
        };
        let fates = acknowledged
            .saturating_add(*refused)
            .saturating_add(*held)
            .saturating_add(*queued)
            .saturating_add(*returned)
            .saturating_add(*discarded);
        if fates != *accepted {
            return Err(Wrong::Report);
        }
        let is_as_seen = *accepted == saw.accepted
            && *acknowledged == saw.acknowledged
            && *refused == 0
            && *held == saw.held
            && *discarded == 0;
        if is_as_seen {
            Ok(())
        } else {
            Err(Wrong::Counts)
        }
    }
}
