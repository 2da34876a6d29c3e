//! Workers in threads of their own, each with a publisher and a member. Each accepted job has one fate, and what the groups report is what the clients saw.
ghost use Rattle.std.specs.Prelude.{◌≤◌};

use crate::broker::crew::{Crew, Worked, work_together};
use crate::broker::ending::{Counts, sum_of};
use crate::broker::seen::Seen;
use crate::broker::shares::bind;
use crate::threads::pair::Pair;
use broker_groups::{Broker, BrokerPlace};
use client_table::ClientTable;
use conn_supply::{HoldingPlace, Supply};
use std::alloc::Global;
use std::process::Abort;
use std::sync::Wait;
use std::thread::Threads;

/// The shares of the eight groups.
const SHARES: [&str; 8] = [
    "$share/g/t0",
    "$share/g/t1",
    "$share/g/t2",
    "$share/g/t3",
    "$share/g/t4",
    "$share/g/t5",
    "$share/g/t6",
    "$share/g/t7",
];

/// Workers over so many groups.
#[derive(Drop)]
struct Pairs {
    groups: u8,
}

impl Crew for Pairs {
    fn work<B: Broker, S: Supply<BrokerPlace<B>>>(
        &self,
        alloc: Global,
        supply: &mut S,
        number: u8,
    ) -> Option<Seen> {
        serve(alloc, supply, number, self.groups)
    }
}

/// What the clients of a worker see.
fn serve<P: HoldingPlace, S: Supply<P>>(
    alloc: Global,
    supply: &mut S,
    number: u8,
    groups: u8,
) -> Option<Seen> {
    bind(alloc, supply, &SHARES)?;
    let mut table = ClientTable::new(alloc).ok()?;
    let mut pair = Pair::of(alloc, number, groups);
    let worked = pair.work(supply, &mut table);
    table.abandon(supply, 0);
    worked.map(|()| pair.seen())
}

/// How many messages have a fate.
fn fates_of(counts: &Counts) -> u128 {
    counts
        .acknowledged
        .saturating_add(counts.refused)
        .saturating_add(counts.held)
        .saturating_add(counts.queued)
        .saturating_add(counts.returned)
        .saturating_add(counts.discarded)
}

/// So many workers over so many groups: the reports count what the clients saw, and each accepted job has one fate.
fn compare<R: Threads + Wait + Sync + Abort>(rt: &R, alloc: Global, workers: u8, groups: u8)
    requires { (1 ≤ workers) × (workers ≤ 63) }
{
    let worked = work_together(rt, alloc, 256, workers, &Pairs { groups });
    let Worked { seen, counts } = worked.expect(rt, "a day");
    let sum = sum_of(&counts);
    let reported = Seen {
        accepted: sum.accepted,
        acknowledged: sum.acknowledged,
        refused: sum.refused,
    };
    assert_eq!(rt; counts.len(), 8);
    assert_eq!(rt; seen, Some(reported));
    assert_eq!(rt; sum.discarded, 0);
    assert!(rt; sum.accepted > 0 && sum.acknowledged > 0 && sum.refused > 0);
    assert_eq!(rt; sum.accepted, fates_of(&sum));
}

#[test]
fn workers_in_one_group(rt: HostRuntime) {
    compare(&rt, rt.alloc(), 1, 1);
    compare(&rt, rt.alloc(), 2, 1);
    compare(&rt, rt.alloc(), 4, 1);
    compare(&rt, rt.alloc(), 8, 1);
}

#[test]
fn workers_in_eight_groups(rt: HostRuntime) {
    compare(&rt, rt.alloc(), 1, 8);
    compare(&rt, rt.alloc(), 2, 8);
    compare(&rt, rt.alloc(), 4, 8);
    compare(&rt, rt.alloc(), 8, 8);
}
