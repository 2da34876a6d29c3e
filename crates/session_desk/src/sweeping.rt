//! The search for a session that is to be retired.
ghost use Rattle.std.specs.Prelude.{◌≡◌, ℕ, ◌≤◌, ◌↔◌, min, IsTrue, MatchOption};
ghost use Rattle.std.specs.Option.{option_map_or};
ghost use Rattle.session_desk.specs.Rows.{HasRow, IsOverdue, IsOldest, NoRow};
ghost use Rattle.session_desk.specs.Idle.{IsIdleIn, IsIdleFrom, IsFirstIdle};
ghost use Rattle.session_desk.specs.Sweeping.{Fits};
ghost use Rattle.session_desk.specs.Layout.{seen};

use crate::row::{Holder, Row};
use indexmap::IndexMap;

/// What is looked for.
#[derive(Clone, Copy)]
pub(crate) enum Due {
    /// A session that is ending and that the desk keeps.
    Kept,
    /// A parked session whose time is over at this moment.
    Over(u64),
    /// An idle session that was parked at this moment or before.
    IdleSince(u64),
}

/// Whether a row is looked for.
fn fits<E, P>(row: &Row<E, P>, due: Due) -> bool
    ensures { IsTrue result ↔ Fits due row.now }
{
    match (&row.held_by, due) {
        (Holder::Kept(_), Due::Kept) => true,
        (Holder::Parked(session), Due::Over(now)) => session.expiry.is_over(now),
        (Holder::Parked(session), Due::IdleSince(moment)) => {
            session.is_idle() && session.expiry.parked_from() <= moment
        }
        _ => false,
    }
}

/// The moment before which a row is not due by time.
fn due_from<E, P>(row: &Row<E, P>) -> u64
    ensures { (now : ℕ) → IsOverdue now row.now → result ≤ now }
{
    match &row.held_by {
        Holder::Parked(session) => session.expiry.over_from(),
        _ => u64::MAX,
    }
}

/// The lesser of two numbers, of which the first may be missing.
fn lesser(best: Option<u64>, number: u64) -> u64
    ensures { result ≡ option_map_or (λ least. min least number) best number }
{
    match best {
        Some(least) => least.min(number),
        None => number,
    }
}

/// The number of the oldest session that is looked for.
pub(crate) fn oldest<E, P>(rows: &IndexMap<u64, Row<E, P>>, due: Due) -> Option<u64>
    ensures { MatchOption result (NoRow (seen rows.now.entries) (Fits due))
        (IsOldest (seen rows.now.entries) (Fits due)) }
{
    let mut best = None;
    'places: for place in 0..rows.len() {
        match rows.get_index(place) {
            Some((number, row)) => {
                if fits(row, due) {
                    best = Some(lesser(best, *number));
                }
            }
            None => unreachable!(),
        }
    }
    best
}

/// A moment before which no row is due by time.
pub(crate) fn soonest<E, P>(rows: &IndexMap<u64, Row<E, P>>) -> u64
    ensures { (number now : ℕ) (row : Row E P) → HasRow (seen rows.now.entries) number row →
        IsOverdue now row → result ≤ now }
{
    let mut soonest = u64::MAX;
    'places: for place in 0..rows.len() {
        match rows.get_index(place) {
            Some((_, row)) => soonest = soonest.min(due_from(row)),
            None => unreachable!(),
        }
    }
    soonest
}

/// The moment from which on the session in a row is idle, if it is.
fn idle_from<E, P>(row: &Row<E, P>) -> Option<u64>
    ensures { MatchOption result (¬ IsIdleIn row.now) (IsIdleFrom row.now) }
{
    match &row.held_by {
        Holder::Parked(session) if session.is_idle() => Some(session.expiry.parked_from()),
        _ => None,
    }
}

/// The first moment from which on a session is idle that is so.
pub(crate) fn first_idle<E, P>(rows: &IndexMap<u64, Row<E, P>>) -> Option<u64>
    ensures { MatchOption result (NoRow (seen rows.now.entries) IsIdleIn) (IsFirstIdle (seen rows.now.entries)) }
{
    let mut first = None;
    'places: for place in 0..rows.len() {
        match rows.get_index(place) {
            Some((_, row)) => {
                if let Some(moment) = idle_from(row) {
                    first = Some(lesser(first, moment));
                }
            }
            None => unreachable!(),
        }
    }
    first
}
