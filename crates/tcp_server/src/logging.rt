//! What the log of a broker says of the connections of a worker, and of its groups.
use broker_log::{Level, Log, quoted};
use conn_service::{LastWord, Served};
use mqtt_packet::ReasonCode;
use shared_routes::KnownRoutes;
use shared_supply::{GroupCounts, SupplyCounts};
use std::alloc::{AllocError, Global};
use std::net::SocketAddr;
use std::sync::atomic::{AtomicBool, AtomicU64, Ordering};

/// How many groups there are.
const GROUPS: usize = 8;

/// For how many milliseconds a group has to refuse no message before its queue counts as not full any more. So a queue that stands at its capacity is told of once.
const CALM: u64 = 1_000;

/// What the workers of a broker tell of a group together, so that one of them says what each of them sees.
#[derive(Drop)]
struct GroupNews {
    // Whether the log was told which share is bound.
    is_bound: AtomicBool,
    // Whether the log was told that the queue is full.
    is_full: AtomicBool,
    // The moment of the latest refusal that a worker saw.
    refused_at: AtomicU64,
}

impl GroupNews {
    fn new() -> GroupNews {
        GroupNews {
            is_bound: AtomicBool::new(false),
            is_full: AtomicBool::new(false),
            refused_at: AtomicU64::new(0),
        }
    }
}

/// The log of a broker, and what was said there already of its groups.
#[derive(Drop)]
pub struct BrokerLog<'a> {
    log: &'a Log,
    alloc: Global,
    groups: [GroupNews; GROUPS],
}

impl<'a> BrokerLog<'a> {
    /// Nothing was said.
    pub fn of(log: &'a Log, alloc: Global) -> BrokerLog<'a> {
        BrokerLog {
            log,
            alloc,
            groups: [
                GroupNews::new(),
                GroupNews::new(),
                GroupNews::new(),
                GroupNews::new(),
                GroupNews::new(),
                GroupNews::new(),
                GroupNews::new(),
                GroupNews::new(),
            ],
        }
    }

    /// Whether it says what connections and groups do.
    pub fn is_on(&self) -> bool {
        self.log.writes(Level::Info)
    }

    /// The share whose text this is is bound to a slot. Said once.
    pub fn bound(&self, slot: usize, share: &[u8]) {
        let Some(group) = self.groups.get(slot) else {
            return;
        };
        let is_told = !self.is_on() || group.is_bound.load(Ordering::SeqCst);
        if !is_told && !group.is_bound.swap(true, Ordering::SeqCst) {
            self.log
                .say(Level::Info, bound_text(self.alloc, slot, share));
        }
    }
}

/// The part of one worker in the log of its broker.
#[derive(Drop)]
pub struct LogPart<'a> {
    log: &'a BrokerLog<'a>,
    // The number of the connection in the worker's first cell.
    first: usize,
    // What it counted when it looked last.
    before: SupplyCounts,
}

impl<'a> LogPart<'a> {
    /// The part of a worker, the connection in whose first cell has this number.
    pub fn of(log: &'a BrokerLog<'a>, first: usize) -> LogPart<'a> {
        LogPart {
            log,
            first,
            before: SupplyCounts::NONE,
        }
    }

    /// Whether it says anything.
    pub fn is_on(&self) -> bool {
        self.log.is_on()
    }

    /// A connection came into this cell, from this address where that is known; or there was no room for it.
    pub fn opened(&self, cell: Option<usize>, peer: Option<SocketAddr>) {
        if self.is_on() {
            let text = match cell {
                Some(cell) => opened_text(self.log.alloc, self.number(cell), peer),
                None => not_opened_text(self.log.alloc, peer),
            };
            self.log.log.say(Level::Info, text);
        }
    }

    /// The client with this Client Identifier was accepted (section 3.2).
    pub fn connected(&self, cell: usize, client: &[u8], session_present: bool) {
        if self.is_on() {
            let number = self.number(cell);
            let text = connected_text(self.log.alloc, number, client, session_present);
            self.log.log.say(Level::Info, text);
        }
    }

    /// The connection in this cell came to its end, after this was the last CONNACK or DISCONNECT to its client.
    pub fn ended(&self, cell: usize, served: Served, last: Option<LastWord>) {
        if self.is_on() {
            let number = self.number(cell);
            self.log.log.say(
                Level::Info,
                ended_text(self.log.alloc, number, served, last),
            );
        }
    }

    /// Says which shares are bound that the worker knows of. Of all workers the first one says it.
    pub fn bound(&self, routes: &KnownRoutes<'_>) {
        if !self.is_on() {
            return;
        }
        for slot in 0..8u8 {
            if let Some(share) = routes.share(slot) {
                self.log.bound(usize::from(slot), share.text());
            }
        }
    }

    /// Looks at what its worker has counted up to this moment, in milliseconds: whether the queue of a group became full, or is no more.
    pub fn look(&mut self, counts: &SupplyCounts, now: u64) {
        if !self.is_on() {
            return;
        }
        for slot in 0..GROUPS {
            self.look_at(slot, &counts.of(slot), now);
        }
        self.before = *counts;
    }

    /// The same of one group.
    fn look_at(&self, slot: usize, counts: &GroupCounts, now: u64) {
        let Some(group) = self.log.groups.get(slot) else {
            return;
        };
        let before = self.before.of(slot);
        if counts.full != before.full {
            group.refused_at.store(now, Ordering::SeqCst);
            if !group.is_full.swap(true, Ordering::SeqCst) {
                self.say_of_queue(slot, "is full: its publishers are answered PUBACK 0x97");
            }
        } else if counts.accepted != before.accepted
            && now.saturating_sub(group.refused_at.load(Ordering::SeqCst)) >= CALM
            && group.is_full.swap(false, Ordering::SeqCst)
        {
            self.say_of_queue(slot, "is full no more");
        }
    }

    fn say_of_queue(&self, slot: usize, what: &str) {
        let alloc = self.log.alloc;
        self.log.log.say(
            Level::Info,
            format!(in alloc; "the queue of slot {slot} {what}"),
        );
    }

    /// The number of the connection in a cell.
    fn number(&self, cell: usize) -> usize {
        self.first.saturating_add(cell)
    }
}

fn bound_text(alloc: Global, slot: usize, share: &[u8]) -> Result<String, AllocError> {
    let share = quoted(alloc, share)?;
    format!(in alloc; "the share {share} is bound to slot {slot}")
}

fn opened_text(
    alloc: Global,
    number: usize,
    peer: Option<SocketAddr>,
) -> Result<String, AllocError> {
    match peer {
        Some(peer) => format!(in alloc; "connection {number} opened from {peer}"),
        None => format!(in alloc; "connection {number} opened"),
    }
}

fn not_opened_text(alloc: Global, peer: Option<SocketAddr>) -> Result<String, AllocError> {
    match peer {
        Some(peer) => format!(in alloc; "a connection from {peer} was closed: there is no room"),
        None => String::from_str(alloc, "a connection was closed: there is no room"),
    }
}

fn connected_text(
    alloc: Global,
    number: usize,
    client: &[u8],
    session_present: bool,
) -> Result<String, AllocError> {
    let client = quoted(alloc, client)?;
    let session = if session_present {
        "with the session that it had"
    } else {
        "with a new session"
    };
    format!(in alloc; "connection {number} accepted: client {client}, {session}")
}

fn ended_text(
    alloc: Global,
    number: usize,
    served: Served,
    last: Option<LastWord>,
) -> Result<String, AllocError> {
    if served != Served::Ended {
        let how = failure(served);
        return format!(in alloc; "connection {number} ended: {how}");
    }
    match last {
        Some(last) => last_text(alloc, number, &last),
        None => format!(in alloc; "connection {number} ended: without a CONNACK"),
    }
}

/// How a connection ended to which this was sent last.
fn last_text(alloc: Global, number: usize, last: &LastWord) -> Result<String, AllocError> {
    match last {
        LastWord::Accepted { .. } => {
            format!(in alloc; "connection {number} ended: by its client")
        }
        LastWord::Refused(_) => with_code(alloc, number, "refused: CONNACK", last.code()),
        LastWord::Disconnected(_) => {
            let code = last.code();
            with_code(alloc, number, disconnected(code), code)
        }
    }
}

/// How a connection ended to which the broker sent a DISCONNECT with this Reason Code.
fn disconnected(code: ReasonCode) -> &'static str {
    if code == ReasonCode::SESSION_TAKEN_OVER {
        "taken over: DISCONNECT"
    } else {
        "ended: DISCONNECT"
    }
}

fn with_code(
    alloc: Global,
    number: usize,
    how: &str,
    code: ReasonCode,
) -> Result<String, AllocError> {
    let name = name_of(code);
    format!(in alloc; "connection {number} {how} 0x{:02X} {name}", code.get())
}

/// How a connection failed.
fn failure(served: Served) -> &'static str {
    match served {
        Served::Ended => "closed",
        Served::Read => "its transport failed at a read",
        Served::Write => "its transport failed at a write",
        Served::Memory => "out of memory",
        Served::NoCrossing => "nothing passed its crossing",
        Served::Stalled => "its client took nothing for too long",
    }
}

/// The standard's name of a Reason Code that the broker sends in a CONNACK or a DISCONNECT (section 2.4).
fn name_of(code: ReasonCode) -> &'static str {
    match code.get() {
        0x00 => "Success",
        0x81 => "Malformed Packet",
        0x82 => "Protocol Error",
        0x83 => "Implementation specific error",
        0x84 => "Unsupported Protocol Version",
        0x85 => "Client Identifier not valid",
        0x86 => "Bad User Name or Password",
        0x89 => "Server busy",
        0x8B => "Server shutting down",
        0x8C => "Bad authentication method",
        0x8D => "Keep Alive timeout",
        0x8E => "Session taken over",
        0x8F => "Topic Filter invalid",
        0x94 => "Topic Alias invalid",
        0x95 => "Packet too large",
        0x97 => "Quota exceeded",
        0x9A => "Retain not supported",
        0x9B => "QoS not supported",
        0xA1 => "Subscription Identifiers not supported",
        _ => "another code",
    }
}
