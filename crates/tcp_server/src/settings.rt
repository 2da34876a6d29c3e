//! How a broker on TCP serves.
use conn_rules::ClientLimits;
use session_desk::Newcomers;
use shared_routes::NewShares;

/// How a broker on TCP serves.
#[derive(Drop)]
pub struct ServeSettings {
    /// How many messages may wait in each group for their first hand-out, from 1 to 65,536.
    pub capacity: usize,
    /// How many workers there are, from 1 to 64.
    pub workers: u8,
    /// What a client is granted at most, whatever it asks for, and which clients are served.
    pub limits: ClientLimits,
    /// For how many seconds at most the broker drains once its input has ended; 0 where it does not drain.
    pub drain: u32,
    /// What it does for a client that has no session, until it drains; then none begins.
    pub newcomers: Newcomers,
    /// What it does for a client that asks for the group of a share that is none of the groups from the start.
    pub new_shares: NewShares,
    /// How many connections an address may have at once; 0 for as many as there are.
    pub per_address: u32,
}
