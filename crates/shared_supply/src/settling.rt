//! How a place settles a message, and when it gathers.
ghost use Rattle.std.specs.Prelude.{◌≡◌, false};
ghost use Rattle.conn_supply.specs.Holding.{IsAmong, KeepsOut, SpendsOut};
ghost use Rattle.broker_groups.specs.Outs.{HasOut};
ghost use Rattle.shared_supply.specs.Settling.{Gathers, IsDue, SettlesAndGathers, runs_at};

use broker_groups::{Broker, BrokerGroups, BrokerPlace};
use group_jobs::{Envelope, Fate};
use std::alloc::Global;
use std::sync::Wait;
use std::thread;

/// At each further so many runs in its docket a place gathers.
const FULL: usize = 64;

/// Settles a message that is out at a place, for good, and gathers where that filled a further 64 runs of the place's docket. Where another place has the ledger,
/// it waits for that. A gather for which an allocation failed is missed, and made again 64 runs later, and not before: it says whether that was so.
pub(crate) fn settle<B: Broker, R: Wait>(
    rt: &R,
    alloc: Global,
    groups: &BrokerGroups<'_, B>,
    place: &mut BrokerPlace<B>,
    envelope: Envelope,
    fate: Fate,
) -> bool
    requires { IsAmong HasOut place.old envelope }
    ensures settled { SettlesAndGathers B.Seen.saw_ledger place.old envelope fate result place.new }
    ensures out { SpendsOut HasOut place.old envelope place.new }
{
    let before = run_count(place);
    let _stamp = place.settle(envelope, fate);
    gather_if_due(rt, alloc, groups, place, before)
}

/// Gathers where the place's docket has more runs than these, and a further 64 of them are full. Whether that was missed, as an allocation failed.
fn gather_if_due<B: Broker, R: Wait>(
    rt: &R,
    alloc: Global,
    groups: &BrokerGroups<'_, B>,
    place: &mut BrokerPlace<B>,
    before: usize,
) -> bool
    ensures due { IsDue before (runs_at place.old) → Gathers B.Seen.saw_ledger place.old result place.new }
    ensures spared { ¬ IsDue before (runs_at place.old) → (place.new ≡ place.old) × (result ≡ false) }
    ensures out { KeepsOut HasOut place.old place.new }
{
    let after = run_count(place);
    if before < after && after % FULL == 0 {
        gather(rt, alloc, groups, place)
    } else {
        false
    }
}

/// Gathers, once no other place has the ledger. Whether that was missed, as an allocation failed.
fn gather<B: Broker, R: Wait>(
    rt: &R,
    alloc: Global,
    groups: &BrokerGroups<'_, B>,
    place: &mut BrokerPlace<B>,
) -> bool
    ensures gathers { Gathers B.Seen.saw_ledger place.old result place.new }
    ensures out { KeepsOut HasOut place.old place.new }
{
    'tries: for _ in rt.forever() {
        match place.gather(groups, rt, alloc) {
            Ok(true) => return false,
            Ok(false) => thread::yield_now(),
            Err(_) => return true,
        }
    }
    unreachable!()
}

/// How many runs the place's docket has. It looks at none of them.
fn run_count<B: Broker>(place: &BrokerPlace<B>) -> usize
    ensures { result ≡ runs_at place.now }
{
    place.docket().settled().run_count()
}
