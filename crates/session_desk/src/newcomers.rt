//! Whom a desk begins a session for.
ghost use Rattle.std.specs.Prelude.{◌≡◌};
ghost use Rattle.session_desk.specs.Newcomers.{room_for};

use limits::MOST_SESSIONS;

/// What a desk does for a client that has no session there.
#[derive(Clone, Copy, Debug, PartialEq, Eq)]
pub enum Newcomers {
    /// It begins one where there are fewer rows than this, and than [`MOST_SESSIONS`](limits::MOST_SESSIONS).
    IfRoom(u32),
    /// It does so too; and where there are as many rows, in the place of an idle session, which ends: one that is parked, holds nothing, and has no place in a
    /// group. Of several that is the one that has been parked longest.
    Displace(u32),
    /// It begins none.
    Refused,
}

/// Where a new session would have its room.
#[derive(Clone, Copy)]
pub(crate) enum Room {
    /// Beside the others.
    Beside,
    /// In the place of the session with this number.
    InPlaceOf(u64),
    /// Nowhere.
    Nowhere,
}

/// How many rows there may be, where a desk is told to keep so many sessions.
pub(crate) fn room_for(most: u32) -> usize
    ensures { result ≡ room_for most }
{
    most.min(MOST_SESSIONS) as usize
}
