//! Threads at one desk.
ghost use Rattle.std.specs.Prelude.{◌≡◌};

use crate::asserting::assert_same;
use crate::one_history::both_withdraw;
use crate::shared::calls::{comes_and_goes, end};
use crate::spot::Spot;
use bytes::Bytes;
use call_history::HistoryName;
use limits::DEFAULT_SESSIONS;
use session_desk::Newcomers;
use shared_desk::{DeskCaller, OpenedDesk, SharedDesk};
use std::marker::Brand;
use std::sync::Wait;
use std::test::Fail;
use std::thread::{Threads, join};

/// How often a client that connects and disconnects was lent its session.
fn visits<D: HistoryName, R: Wait>(
    rt: &R,
    desk: &SharedDesk<Spot, D>,
    me: &mut DeskCaller<Spot, D>,
    connection: u16,
    client: &'static [u8; 1],
) -> u32 {
    let client = Bytes::from_static(client);
    let mut count = 0u32;
    if connection < 1024 {
        for _ in 0..200u32 {
            if comes_and_goes(rt, desk, me, connection, &client) {
                count = count.saturating_add(1);
            }
        }
    }
    count
}

/// Two clients, each in a thread of its own, at a new desk.
fn both<D: HistoryName + Send + Sync, R: Threads + Wait + Sync>(
    rt: &R,
    opened: OpenedDesk<Spot>,
) -> (u32, u32)
    requires { opened ≡ D.history }
{
    let (desk, mut one) = opened.name::<D>();
    let mut other = desk.share(&mut one);
    let counts = join(
        rt,
        || visits(rt, &desk, &mut one, 0, b"a"),
        || visits(rt, &desk, &mut other, 1, b"b"),
    );
    let one = both_withdraw(rt, &desk, one, other);
    end(desk, one);
    counts
}

fn crosses_threads<T: Send>() {}

fn is_shared_by_threads<T: Sync>() {}

#[test]
fn two_clients_at_once(rt: HostRuntime) -> Result<(), Fail> {
    let opened = OpenedDesk::open(rt.alloc(), Newcomers::IfRoom(DEFAULT_SESSIONS))?;
    let counts = both::<Brand, _>(&rt, opened);
    assert_same(&rt, &counts, &(200, 200));
    Ok(())
}

#[test]
fn what_threads_may_do_with_it() {
    is_shared_by_threads::<SharedDesk<Spot, Brand>>();
    crosses_threads::<SharedDesk<Spot, Brand>>();
    crosses_threads::<DeskCaller<Spot, Brand>>();
    crosses_threads::<OpenedDesk<Spot>>();
}
