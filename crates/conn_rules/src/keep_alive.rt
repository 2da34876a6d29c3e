//! How long a client may be silent, and a connection without a CONNECT (sections 3.1.2.10 and 3.1.4).
ghost use Rattle.std.specs.Prelude.{◌≡◌, ◌<◌, ◌*◌, MatchOption};
ghost use Rattle.conn_rules.specs.KeepAlive.{is_overdue, is_late};

/// How long a connection may be without a CONNECT, in milliseconds.
pub const CONNECT_TIMEOUT: u64 = 10_000;

/// Whether a client is overdue whose keep alive is so many seconds and whose last packet came so many milliseconds ago: after one
/// and a half times its keep alive (section 3.1.2.10).
pub fn is_overdue(keep_alive: u16, silent: u64) -> bool
    ensures { result ≡ is_overdue keep_alive silent }
{
    keep_alive > 0 && silent >= 1_500 * u64::from(keep_alive)
}

/// How long a client may be silent whose keep alive is so many seconds, in milliseconds: one and a half times its keep alive (section 3.1.2.10);
/// `None` where that is 0, and it may be silent for ever.
pub fn longest_silence(keep_alive: u16) -> Option<u64>
    ensures { MatchOption result (keep_alive ≡ 0) (λ longest. (0 < keep_alive) × (longest ≡ 1500 * keep_alive)) }
{
    if keep_alive == 0 {
        None
    } else {
        Some(1_500 * u64::from(keep_alive))
    }
}

/// Whether the CONNECT has not come in time; `waited` is in milliseconds since the connection was opened.
pub fn is_late(waited: u64) -> bool
    ensures { result ≡ is_late waited }
{
    waited >= CONNECT_TIMEOUT
}
