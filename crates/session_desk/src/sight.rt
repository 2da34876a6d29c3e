//! A look at the row of a client's session.
ghost use Rattle.std.specs.Prelude.{◌≡◌, true};
ghost use Rattle.session_desk.specs.Rows.{is_living};
ghost use Rattle.session_desk.specs.Opening.{LooksAs};

use crate::row::{Holder, Row};

/// What a look finds.
#[derive(Clone, Copy)]
pub(crate) enum Sight {
    /// The session is lent to this holder, and this connection may wait for it.
    Lent { holder: u16, wait: Option<u16> },
    /// It is parked, and is to end.
    Stale,
    /// It is parked, and its client may have it back.
    Fresh,
}

/// A look at the row of a session that is lent or parked, by a connection that asks for it with this Clean Start, at this
/// moment.
pub(crate) fn look<E, P>(row: &Row<E, P>, clean: bool, now: u64) -> Sight
    requires { is_living row.now.held_by ≡ true }
    ensures { LooksAs row.now clean now result }
{
    match &row.held_by {
        Holder::Lent(holder) => Sight::Lent {
            holder: *holder,
            wait: row.wait,
        },
        Holder::Parked(session) => {
            if clean || session.expiry.is_over(now) {
                Sight::Stale
            } else {
                Sight::Fresh
            }
        }
        _ => unreachable!(),
    }
}
