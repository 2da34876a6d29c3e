//! What a broker on TCP begins with.
ghost use Rattle.std.specs.Prelude.{◌≤◌};

use crate::texts::FilePath;
use broker_log::Level;
use conn_rules::{ExpiryLimit, KeepAliveLimit, MaxInflight, QueueCapacity};
use mqtt_topic::Routes;
use std::net::Ipv4Addr;

/// Until when a broker on TCP serves.
#[derive(Clone, Copy, Debug, PartialEq, Eq)]
pub enum ServeUntil {
    /// Until standard input ends.
    Stdin,
    /// Until the process is killed; standard input is not read.
    Killed,
}

/// What a broker on TCP begins with.
#[derive(Drop)]
pub struct ServeOptions {
    /// The address of this machine that it listens at.
    pub address: Ipv4Addr,
    /// The port; at 0 the system chooses one.
    pub port: u16,
    /// How many workers it has, 1 to 64.
    pub workers: u8,
    /// Until when it serves.
    pub until: ServeUntil,
    /// For how many seconds at most, once its input has ended, it still hands out what was accepted, 0 to 86400; it accepts nothing meanwhile.
    pub drain: u32,
    /// The port of its metrics; at 0 there are none.
    pub metrics: u16,
    /// What is said on the error output while it serves.
    pub log: Level,
    /// How many sessions are kept, 1 to 65536.
    pub sessions: u32,
    /// Where as many sessions are kept as there may be, none that is parked goes for a client that has none.
    pub keep_parked: bool,
    /// Clients have no groups but those that its setup names.
    pub declared_groups: bool,
    /// How many connections an address may have at once, 0 to 65535; at 0 as many as there are.
    pub per_address: u32,
    /// For how many seconds the session of a client outlives its connection at most, if that is limited.
    pub max_expiry: Option<ExpiryLimit>,
    /// The seconds of a keep alive at most, if they are limited.
    pub max_keep_alive: Option<KeepAliveLimit>,
    /// The file with its users, if only their clients are served.
    pub users: Option<FilePath>,
    /// How many messages may wait in the queue of each group.
    pub capacity: QueueCapacity,
    /// How many PUBLISH packets a client has unacknowledged at most.
    pub max_inflight: MaxInflight,
    /// The shares that are bound from the start, each to the slot of its group.
    pub groups: Routes,
    ghost few: { (1 ≤ workers) × (workers ≤ 64) },
}
