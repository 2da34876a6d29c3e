//! How many connections workers have at most.

use limits::{MOST_CONNECTIONS, MOST_PORTS};

/// How many connections each of so many workers has at most: together they have [`MOST_CONNECTIONS`](limits::MOST_CONNECTIONS).
pub fn share_of(count: usize) -> u16 {
    if count == 0 || count > usize::from(MOST_PORTS) {
        return 0;
    }
    MOST_CONNECTIONS / count as u16
}
