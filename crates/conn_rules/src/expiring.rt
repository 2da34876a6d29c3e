//! How long a message may wait for a member, and what is left of that (section 3.3.2.3.3).
ghost use Rattle.std.specs.Prelude.{◌≡◌, ◌-◌, ◌/◌};
ghost use Rattle.conn_rules.specs.Expiring.{expiry_from, waited, is_expired, interval_left};

use group_jobs::MessageExpiry;

/// When a message expires that came at this moment, in milliseconds, with this Message Expiry Interval, in seconds.
pub(crate) fn expiry_from(now: u64, interval: Option<u32>) -> Option<MessageExpiry>
    ensures { result ≡ expiry_from now interval }
{
    match interval {
        Some(seconds) => Some(MessageExpiry {
            seconds,
            accepted_at: now,
        }),
        None => None,
    }
}

/// Whether a message has expired at this moment, in milliseconds: it has waited as long as it may, or longer.
#[inline(always)]
pub fn is_expired(now: u64, expiry: Option<MessageExpiry>) -> bool
    ensures { result ≡ is_expired now expiry }
{
    match expiry {
        Some(expiry) => waited(now, expiry) >= 1_000 * u64::from(expiry.seconds),
        None => false,
    }
}

/// The Message Expiry Interval, in seconds, with which a message goes out at this moment: what it came with less the whole seconds that it has waited,
/// 0 where it has waited longer.
#[inline(always)]
pub fn interval_left(now: u64, expiry: Option<MessageExpiry>) -> Option<u32>
    ensures { result ≡ interval_left now expiry }
{
    match expiry {
        Some(expiry) => Some(seconds_left(waited(now, expiry), expiry.seconds)),
        None => None,
    }
}

/// What is left of so many seconds after so many milliseconds.
fn seconds_left(waited: u64, seconds: u32) -> u32
    ensures { result ≡ seconds - waited / 1000 }
{
    match u32::try_from(waited / 1_000) {
        Ok(gone) => seconds.saturating_sub(gone),
        Err(_) => 0,
    }
}

/// How long a message has waited, in milliseconds: nothing where the clock of who asks is behind that of its publisher's connection.
fn waited(now: u64, expiry: MessageExpiry) -> u64
    ensures { result ≡ waited now expiry }
{
    now.saturating_sub(expiry.accepted_at)
}
