//! What a worker tells its poller beside its calls: what became of a connection, and what the worker counts. No contract speaks of it.
use crate::served::ServedCounts;
use conn_service::{AnswerCounts, LastWord, Served};
use shared_routes::KnownRoutes;
use shared_supply::SupplyCounts;

/// What became of a connection in a round.
#[derive(Clone, Copy)]
pub enum Notice<'a> {
    /// Its client got its session, and has it after the round. Where a round gives it its session and ends it too, it is only told that it ended.
    Connected {
        /// The Client Identifier: the one that it connected with, or the one that was assigned to it (sections 3.1.3.1 and 3.2.2.3.7).
        client: &'a [u8],
        /// Session Present (section 3.2.2.1.1).
        session_present: bool,
    },
    /// It ended.
    Ended {
        /// How.
        served: Served,
        /// The latest CONNACK or DISCONNECT that was sent to its client, if any was: also where it was not written any more.
        last: Option<LastWord>,
    },
}

/// What a worker counts, and what it knows of the routes.
#[derive(Clone, Copy)]
pub struct Tallies<'a> {
    /// Of its messages and sessions.
    pub supply: &'a SupplyCounts,
    /// Of its connections that have ended.
    pub served: &'a ServedCounts,
    /// Of what was answered to its clients.
    pub answers: &'a AnswerCounts,
    /// How many of its clients have their session.
    pub connected: u64,
    /// The shares that are bound, as far as it knows, by their slots.
    pub routes: &'a KnownRoutes<'a>,
}
