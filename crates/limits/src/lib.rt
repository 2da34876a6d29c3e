//! The limits of a broker, each once: how much of each kind it has at most. All are this project's
//! choice (profile), and OASIS MQTT 5.0 leaves each to a server.
//!
//! In code they are these constants, in definitions and contracts the numbers of
//! `specs/Limits.antt`, and [`limits_law`] says that they are the same.
#![tactic(auto)]

ghost use Rattle.std.specs.Prelude.{◌≡◌};
ghost use Rattle.limits.specs.Limits.{most_groups, most_members, most_ports, most_sessions, default_sessions, most_retired, most_connections, most_waiting, most_bytes, most_accepted, most_unacknowledged};

/// How many groups a broker has at most: their slots are the numbers below (profile).
pub const MOST_GROUPS: u8 = 8;

/// How many members a group has at most, each at a place of its own: the places are the numbers below
/// (profile).
pub const MOST_MEMBERS: u8 = 32;

/// How many ports a group has at most, through which messages come to it: one for each worker of a broker
/// on threads, one for each client of a broker on one thread, so that there are as many workers or clients
/// at most (profile).
pub const MOST_PORTS: u8 = 64;

/// How many sessions of a broker are lent or parked at most, however many it is told to keep; those that are ending may stand
/// beside them (profile).
pub const MOST_SESSIONS: u32 = 65_536;

/// How many of them a broker keeps that is told nothing else (profile).
pub const DEFAULT_SESSIONS: u32 = 256;

/// How many sessions whose time is over end at one Tick at most; the others end at later ones (profile).
pub const MOST_RETIRED: usize = 256;

/// How many connections a broker on threads has at most, before their CONNECT and after it: their numbers
/// are those below (profile).
pub const MOST_CONNECTIONS: u16 = 1_024;

/// The highest capacity of a group's queue: how many accepted messages may wait for their first hand-out (profile).
pub const MOST_WAITING: u32 = 65_536;

/// How many bytes a packet has at most, its fixed header among them: the Maximum Packet Size of the
/// CONNACK (profile; 3.2.2.3.6).
pub const MOST_BYTES: u32 = 65_536;

/// How many messages a port accepts at most, in all its life: 2^40 (profile).
pub const MOST_ACCEPTED: u64 = 1 << 40;

/// How many messages a member has at most that were sent to it and not acknowledged, whatever its Receive
/// Maximum (profile; 4.9).
pub const MOST_UNACKNOWLEDGED: usize = 256;

/// **Each limit is the same number in code and in contracts.**
pub fn limits_law()
    ensures groups { MOST_GROUPS ≡ most_groups }
    ensures members { MOST_MEMBERS ≡ most_members }
    ensures ports { MOST_PORTS ≡ most_ports }
    ensures sessions { MOST_SESSIONS ≡ most_sessions }
    ensures default_sessions { DEFAULT_SESSIONS ≡ default_sessions }
    ensures retired { MOST_RETIRED ≡ most_retired }
    ensures connections { MOST_CONNECTIONS ≡ most_connections }
    ensures waiting { MOST_WAITING ≡ most_waiting }
    ensures bytes { MOST_BYTES ≡ most_bytes }
    ensures accepted { MOST_ACCEPTED ≡ most_accepted }
    ensures unacknowledged { MOST_UNACKNOWLEDGED ≡ most_unacknowledged }
{}
