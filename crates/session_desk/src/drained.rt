//! The end of a desk: everything that it has.
ghost use Rattle.std.specs.Prelude.{◌≡◌, ◌+◌, ◌*◌, ◌≤◌, ◌++◌, ℕ, length, map, sum_by, vec_capacity};
ghost use Rattle.limits.specs.Limits.{most_unacknowledged};
ghost use Rattle.member_window.specs.Contents.{held_of};
ghost use Rattle.session_desk.specs.Rows.{session_in};
ghost use Rattle.session_desk.specs.Everything.{items_of, place_in, place_of, free_in};

use crate::row::{Holder, Row};
use crate::session::{Membership, Session};
use indexmap::IndexMap;
use member_window::Window;

/// Everything that a desk had when it ended.
pub struct All<E, P> {
    /// The places: the free ones, and those of the sessions that the desk kept.
    pub places: Vec<P>,
    /// What these sessions held.
    pub envelopes: Vec<E>,
}

/// Takes everything out of a window, and ends it.
fn drain_window<E>(mut window: Window<E>, envelopes: &mut Vec<E>)
    requires { length envelopes.old.items + length (held_of window) ≤ vec_capacity envelopes.old }
    ensures items { envelopes.new.items ≡ envelopes.old.items ++ map (λ entry. entry.1) (held_of window) }
    ensures room { vec_capacity envelopes.new ≡ vec_capacity envelopes.old }
{
    window.down();
    'held: while let Some((_, item)) = window.take_first() {
        envelopes.push_reserved(item);
    }
    window.end();
}

/// Takes the place out of a membership, if it has one.
fn drain_membership<P>(membership: Membership<P>, places: &mut Vec<P>)
    requires { length places.old.items + 1 ≤ vec_capacity places.old }
    ensures items { places.new.items ≡ places.old.items ++ place_in membership }
    ensures room { vec_capacity places.new ≡ vec_capacity places.old }
{
    match membership {
        Membership::NotMember => {}
        Membership::Member(place) => places.push_reserved(place),
        Membership::Leaving(place) => places.push_reserved(place),
    }
}

/// Takes everything out of a session that the desk keeps.
fn drain_session<E, P>(session: Session<E, P>, places: &mut Vec<P>, envelopes: &mut Vec<E>)
    requires places { length places.old.items + 1 ≤ vec_capacity places.old }
    requires envelopes { length envelopes.old.items + most_unacknowledged ≤ vec_capacity envelopes.old }
    ensures places { places.new.items ≡ places.old.items ++ place_in session.membership }
    ensures envelopes { envelopes.new.items
        ≡ envelopes.old.items ++ map (λ entry. entry.1) (held_of session.window) }
    ensures places_room { vec_capacity places.new ≡ vec_capacity places.old }
    ensures envelopes_room { vec_capacity envelopes.new ≡ vec_capacity envelopes.old }
    ensures few_places { length places.new.items ≤ length places.old.items + 1 }
    ensures few_envelopes { length envelopes.new.items ≤ length envelopes.old.items + most_unacknowledged }
{
    let Session {
        identity,
        expiry: _,
        window,
        membership,
        subscription: _,
    } = session;
    identity.end();
    let _held = window.len(); // at most 256
    drain_window(window, envelopes);
    drain_membership(membership, places);
}

/// Takes everything out of a row.
fn drain_row<E, P>(row: Row<E, P>, places: &mut Vec<P>, envelopes: &mut Vec<E>)
    requires places { length places.old.items + 1 ≤ vec_capacity places.old }
    requires envelopes { length envelopes.old.items + most_unacknowledged ≤ vec_capacity envelopes.old }
    ensures places { places.new.items ≡ places.old.items ++ place_of (session_in row.held_by) }
    ensures envelopes { envelopes.new.items ≡ envelopes.old.items ++ items_of (session_in row.held_by) }
    ensures places_room { vec_capacity places.new ≡ vec_capacity places.old }
    ensures envelopes_room { vec_capacity envelopes.new ≡ vec_capacity envelopes.old }
    ensures few_places { length places.new.items ≤ length places.old.items + 1 }
    ensures few_envelopes { length envelopes.new.items ≤ length envelopes.old.items + most_unacknowledged }
{
    let Row {
        client: _,
        wait: _,
        held_by,
    } = row;
    match held_by {
        Holder::Lent(_) => {}
        Holder::Away => {}
        Holder::Parked(session) => drain_session(session, places, envelopes),
        Holder::Kept(session) => drain_session(session, places, envelopes),
    }
}

/// Takes everything out of the rows, and ends them.
pub(crate) fn drain_rows<E, P>(
    mut rows: IndexMap<u64, Row<E, P>>,
    places: &mut Vec<P>,
    envelopes: &mut Vec<E>,
)
    requires places { length places.old.items + length rows.entries ≤ vec_capacity places.old }
    requires envelopes { length envelopes.old.items + most_unacknowledged * length rows.entries ≤ vec_capacity envelopes.old }
    ensures places { (measure : P → ℕ) → sum_by measure places.new.items
        ≡ sum_by measure places.old.items
        + sum_by (λ entry. sum_by measure (place_of (session_in entry.1.held_by))) rows.entries }
    ensures envelopes { (measure : E → ℕ) → sum_by measure envelopes.new.items
        ≡ sum_by measure envelopes.old.items
        + sum_by (λ entry. sum_by measure (items_of (session_in entry.1.held_by))) rows.entries }
    ensures places_room { vec_capacity places.new ≡ vec_capacity places.old }
    ensures few_places { length places.new.items ≤ length places.old.items + length rows.entries }
{
    'rows: while let Some((_, row)) = rows.pop() {
        drain_row(row, places, envelopes);
    }
    rows.destroy_empty();
}

/// Takes the free places out of their cells.
pub(crate) fn drain_cells<P>(mut cells: Vec<Option<P>>, places: &mut Vec<P>)
    requires { length places.old.items + length cells.items ≤ vec_capacity places.old }
    ensures { (measure : P → ℕ) → sum_by measure places.new.items
        ≡ sum_by measure places.old.items + sum_by (λ cell. sum_by measure (free_in cell)) cells.items }
{
    'cells: while let Some(cell) = cells.pop() {
        if let Some(place) = cell {
            places.push_reserved(place);
        }
    }
    cells.destroy_empty();
}
