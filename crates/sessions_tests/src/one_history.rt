//! What two threads know of one desk, put together.
ghost use Rattle.std.specs.Prelude.{◌≡◌};
ghost use Rattle.session_desk.specs.Calls.{Withdraw};
ghost use Rattle.shared_desk.specs.Histories.{IsHistory};
ghost use Rattle.sessions_tests.specs.Spots.{any_out, number_of_spot};
ghost use Rattle.sessions_tests.specs.SessionHolders.{Stands};

use crate::spot::Spot;
use call_history::HistoryName;
use shared_desk::{DeskCaller, SharedDesk};
use std::sync::Wait;
use std::thread::{Threads, join};

/// Withdraws a connection, in any thread.
fn withdraw_as<D: HistoryName, R: Wait>(
    rt: &R,
    desk: &SharedDesk<Spot, D>,
    mut me: DeskCaller<Spot, D>,
    connection: u16,
) -> DeskCaller<Spot, D>
    ensures { Stands (Withdraw connection) result.calls }
{
    desk.withdraw(rt, &mut me, connection);
    me
}

/// Two threads withdraw a connection each: both calls stand in one history of the desk.
pub fn both_withdraw<D: HistoryName + Send + Sync, R: Threads + Wait + Sync>(
    rt: &R,
    desk: &SharedDesk<Spot, D>,
    one: DeskCaller<Spot, D>,
    other: DeskCaller<Spot, D>,
) -> DeskCaller<Spot, D>
    ensures first { Stands (Withdraw 0) result.calls }
    ensures second { Stands (Withdraw 1) result.calls }
    ensures legal { IsHistory any_out (λ _. 3) number_of_spot result.calls }
{
    let (mut one, other) = join(
        rt,
        move || -> DeskCaller<Spot, D>
            ensures { Stands (Withdraw 0) result.calls }
        { withdraw_as(rt, desk, one, 0) },
        move || -> DeskCaller<Spot, D>
            ensures { Stands (Withdraw 1) result.calls }
        { withdraw_as(rt, desk, other, 1) },
    );
    desk.agree(&mut one, other);
    one
}
