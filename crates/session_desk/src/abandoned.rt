//! The end of a desk, and of a session, whose places and items may be let go.
ghost use Rattle.std.specs.Prelude.{◌≡◌, []};
ghost use Rattle.member_window.specs.Contents.{held_of};

use crate::row::{Holder, Row};
use crate::session::Session;
use indexmap::IndexMap;
use member_window::Window;

/// Gives everything in a window to who lets go of it, and ends the window.
fn abandon_window<E, F: Fn(E)>(mut window: Window<E>, discard: &F)
    requires { F.IsAlwaysCallable discard.now }
{
    window.down();
    'held: while let Some((_, item)) = window.take_first() {
        discard(item);
    }
    window.end();
}

impl<E, P: Drop> Session<E, P> {
    /// Lets go of a session that holds nothing, as [`Window::is_empty`] tells. Its desk is told nothing, and its row stays as it
    /// is: for a session that no desk knows.
    pub fn end(self)
        requires { held_of self.window ≡ [] }
    {
        let Session {
            identity,
            expiry: _,
            window,
            membership: _,
            subscription: _,
        } = self;
        identity.end();
        window.end();
    }
}

impl<E, P: Drop> Session<E, P> {
    /// Lets go of a session, and gives everything in it to who lets go of that. Its desk is told nothing, and its row stays as it
    /// is: for who ends, and has no use for what the session holds.
    pub fn abandon_with<F: Fn(E)>(self, discard: &F)
        requires { F.IsAlwaysCallable discard.now }
    {
        let Session {
            identity,
            expiry: _,
            window,
            membership: _,
            subscription: _,
        } = self;
        identity.end();
        abandon_window(window, discard);
    }
}

impl<E: Drop, P: Drop> Session<E, P> {
    /// Lets go of a session and of everything in it, as [`Session::abandon_with`] does.
    pub fn abandon(self) {
        self.abandon_with(&|_item| {});
    }
}

/// Lets go of everything in a row.
fn abandon_row<E, P: Drop, F: Fn(E)>(row: Row<E, P>, discard: &F)
    requires { F.IsAlwaysCallable discard.now }
{
    let Row {
        client: _,
        wait: _,
        held_by,
    } = row;
    match held_by {
        Holder::Lent(_) => {}
        Holder::Away => {}
        Holder::Parked(session) => session.abandon_with(discard),
        Holder::Kept(session) => session.abandon_with(discard),
    }
}

/// Lets go of everything in the rows, and ends them.
pub(crate) fn abandon_rows<E, P: Drop, F: Fn(E)>(mut rows: IndexMap<u64, Row<E, P>>, discard: &F)
    requires { F.IsAlwaysCallable discard.now }
{
    'rows: while let Some((_, row)) = rows.pop() {
        abandon_row(row, discard);
    }
    rows.destroy_empty();
}
