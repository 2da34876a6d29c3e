//! What the calls of one thread are answered.
ghost use Rattle.std.specs.Prelude.{◌≡◌, ◌<◌, ◌≤◌, length, IfOk, IfSome};
ghost use Rattle.conn_supply.specs.Ready.{IsReady, IsSoundSession};
ghost use Rattle.sessions_tests.specs.Spots.{any_out};

use crate::asserting::assert_same;
use crate::spot::Spot;
use bytes::Bytes;
use call_history::HistoryName;
use group_jobs::Envelope;
use limits::DEFAULT_SESSIONS;
use session_desk::{Attached, DeskError, Newcomers, Session};
use shared_desk::{DeskCaller, OpenedDesk, SharedDesk};
use std::marker::Brand;
use std::sync::Wait;
use std::test::Fail;

/// Lets go of a message.
fn discard(envelope: Envelope) {
    let _parts = envelope.open();
}

/// Lets go of a session, if there is one.
fn release(session: Option<Session<Envelope, Spot>>) {
    if let Some(session) = session {
        session.abandon_with(&discard);
    }
}

/// Lets go of a desk with all that it has.
pub(crate) fn end<D: HistoryName>(desk: SharedDesk<Spot, D>, mut me: DeskCaller<Spot, D>) {
    desk.finish(&mut me).abandon_with(&discard);
}

/// The session that a connection was lent; one that ended for it is let go.
fn lent(attached: Result<Attached<Envelope, Spot>, DeskError>) -> Option<Session<Envelope, Spot>>
    requires { IfOk attached (IsReady any_out) }
    ensures { IfSome result (IsSoundSession any_out) }
{
    match attached {
        Ok(Attached::New { session, ended }) => {
            release(ended);
            Some(session)
        }
        Ok(Attached::Resumed(session)) => Some(session),
        Ok(Attached::Replace(_)) => None,
        Ok(Attached::Busy) => None,
        Err(_) => None,
    }
}

/// Attaches the client of this name, and parks its session as it is: whether it had one.
pub(crate) fn comes_and_goes<D: HistoryName, R: Wait>(
    rt: &R,
    desk: &SharedDesk<Spot, D>,
    me: &mut DeskCaller<Spot, D>,
    connection: u16,
    client: &Bytes,
) -> bool
    requires known { connection < 1024 }
    requires short { length client.now ≤ 128 }
{
    match lent(desk.attach(rt, me, desk.newcomers(), connection, client, false, 0)) {
        Some(session) => {
            release(desk.park_as_is(rt, me, session));
            true
        }
        None => false,
    }
}

/// Whether connection 0 is kicked before and after the moment at which connection 1 asks for its session, and whether connection 1 is.
fn takeover<D: HistoryName, R: Wait>(
    rt: &R,
    desk: &SharedDesk<Spot, D>,
    me: &mut DeskCaller<Spot, D>,
) -> (bool, bool, bool) {
    let client = Bytes::from_static(b"a");
    let session = lent(desk.attach(rt, me, desk.newcomers(), 0, &client, false, 0));
    let before = desk.kicked(rt, me, 0);
    release(lent(desk.attach(rt, me, desk.newcomers(), 1, &client, false, 0)));
    let behind = desk.kicked(rt, me, 0);
    if let Some(session) = session {
        release(desk.park_as_is(rt, me, session));
    }
    (before, behind, desk.kicked(rt, me, 1))
}

/// What is said of a takeover at a new desk.
fn takeover_day<D: HistoryName, R: Wait>(rt: &R, opened: OpenedDesk<Spot>) -> (bool, bool, bool)
    requires { opened ≡ D.history }
{
    let (desk, mut me) = opened.name::<D>();
    let told = takeover(rt, &desk, &mut me);
    end(desk, me);
    told
}

#[test]
fn who_is_asked_for_its_session_is_kicked(rt: HostRuntime) -> Result<(), Fail> {
    let opened = OpenedDesk::open(rt.alloc(), Newcomers::IfRoom(DEFAULT_SESSIONS))?;
    let told = takeover_day::<Brand, _>(&rt, opened);
    assert_same(&rt, &told, &(false, true, false));
    Ok(())
}

/// Whether a client that comes twice has a session each time.
fn two_visits<D: HistoryName, R: Wait>(rt: &R, opened: OpenedDesk<Spot>) -> (bool, bool)
    requires { opened ≡ D.history }
{
    let (desk, mut me) = opened.name::<D>();
    let client = Bytes::from_static(b"a");
    let first = comes_and_goes(rt, &desk, &mut me, 0, &client);
    let second = comes_and_goes(rt, &desk, &mut me, 1, &client);
    end(desk, me);
    (first, second)
}

#[test]
fn a_client_comes_again(rt: HostRuntime) -> Result<(), Fail> {
    let opened = OpenedDesk::open(rt.alloc(), Newcomers::IfRoom(DEFAULT_SESSIONS))?;
    let (first, second) = two_visits::<Brand, _>(&rt, opened);
    assert!(rt; first && second);
    Ok(())
}

/// The numbers of the places that are lent, of two that are there.
fn places<D: HistoryName, R: Wait>(
    rt: &R,
    desk: &SharedDesk<Spot, D>,
    me: &mut DeskCaller<Spot, D>,
) -> [Option<Spot>; 4] {
    let _none = desk.take_place(rt, me, Spot::Second);
    let _none = desk.take_place(rt, me, Spot::First);
    let other = desk.lend_place(rt, me, 2);
    let first = desk.lend_place(rt, me, 3);
    let second = desk.lend_place(rt, me, 3);
    [other, first, second, desk.lend_place(rt, me, 3)]
}

/// The places that a new desk lends, of two that it is given.
fn places_day<D: HistoryName, R: Wait>(rt: &R, opened: OpenedDesk<Spot>) -> [Option<Spot>; 4]
    requires { opened ≡ D.history }
{
    let (desk, mut me) = opened.name::<D>();
    let lent = places(rt, &desk, &mut me);
    end(desk, me);
    lent
}

#[test]
fn the_least_free_place_is_lent(rt: HostRuntime) -> Result<(), Fail> {
    let opened = OpenedDesk::open(rt.alloc(), Newcomers::IfRoom(DEFAULT_SESSIONS))?;
    let lent = places_day::<Brand, _>(&rt, opened);
    assert_same(
        &rt,
        &lent,
        &[None, Some(Spot::First), Some(Spot::Second), None],
    );
    Ok(())
}

#[test]
fn a_desk_that_nobody_shared(rt: HostRuntime) -> Result<(), Fail> {
    OpenedDesk::<Spot>::open(rt.alloc(), Newcomers::IfRoom(DEFAULT_SESSIONS))?.abandon();
    Ok(())
}
