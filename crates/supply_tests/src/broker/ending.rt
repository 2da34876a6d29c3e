//! How a broker ends, and what its groups' reports count.

use broker_groups::{Broker, BrokerPlace, Ended, Ports};
use call_history::HistoryName;
use group_jobs::{Envelope, Report};
use group_queue::{Nobody, Unfinished};
use session_desk::{All, Desk};
use shared_desk::DeskCaller;
use shared_supply::SharedBroker;
use std::alloc::Global;
use std::sync::Wait;

/// What became of the messages of a group.
#[derive(Clone, Copy, Debug, PartialEq, Eq)]
pub(crate) struct Counts {
    pub(crate) accepted: u128,
    pub(crate) acknowledged: u128,
    pub(crate) refused: u128,
    pub(crate) held: u128,
    pub(crate) queued: u128,
    pub(crate) returned: u128,
    pub(crate) discarded: u128,
}

impl Counts {
    /// Nothing.
    pub(crate) const NOTHING: Counts = Counts {
        accepted: 0,
        acknowledged: 0,
        refused: 0,
        held: 0,
        queued: 0,
        returned: 0,
        discarded: 0,
    };
}

/// What became of the messages of all groups.
pub(crate) fn sum_of(counts: &[Counts]) -> Counts {
    let mut sum = Counts::NOTHING;
    for one in counts {
        sum = Counts {
            accepted: sum.accepted.saturating_add(one.accepted),
            acknowledged: sum.acknowledged.saturating_add(one.acknowledged),
            refused: sum.refused.saturating_add(one.refused),
            held: sum.held.saturating_add(one.held),
            queued: sum.queued.saturating_add(one.queued),
            returned: sum.returned.saturating_add(one.returned),
            discarded: sum.discarded.saturating_add(one.discarded),
        };
    }
    sum
}

/// What a report counts.
fn counts_of(report: &Report) -> Counts {
    let mut accepted = 0u128;
    for count in &report.accepted {
        accepted = accepted.saturating_add(u128::from(*count));
    }
    Counts {
        accepted,
        acknowledged: report.settled.acknowledged.len(),
        refused: report.settled.refused.len(),
        held: report.held.len() as u128,
        queued: report.queued.len() as u128,
        returned: report.returned.len() as u128,
        discarded: report.settled.discarded.len(),
    }
}

/// What became of the messages of a group, or the number of the refusal to end it.
pub(crate) fn outcome_of(answer: Result<Report, Unfinished<'_>>) -> Result<Counts, u16> {
    match answer {
        Ok(report) => Ok(counts_of(&report)),
        Err(unfinished) => Err(unfinished.abandon().number()),
    }
}

/// Lets go of a message.
pub(crate) fn discard(envelope: Envelope) {
    let _parts = envelope.open();
}

/// Lets go of messages.
pub(crate) fn let_go_of_all(envelopes: Vec<Envelope>) {
    let mut envelopes = envelopes;
    'envelopes: while let Some(envelope) = envelopes.pop() {
        discard(envelope);
    }
    envelopes.destroy_empty();
}

/// What became of the messages of each group, the last one first; nothing of a group that did not end.
pub(crate) fn count(alloc: Global, ended: Ended<'_>) -> Vec<Counts> {
    let Ended {
        mut answers,
        strangers,
    } = ended;
    let_go_of_all(strangers);
    let mut all = Vec::new(alloc);
    'answers: while let Some(answer) = answers.pop() {
        if let Ok(counts) = outcome_of(answer) {
            let _kept = all.push(counts);
        }
    }
    answers.destroy_empty();
    all
}

/// Ends a broker, and counts its groups' messages; where an allocation failed for that, nothing is told.
pub(crate) fn end<B: Broker<Seen = Nobody>, N: HistoryName, R: Wait>(
    rt: &R,
    alloc: Global,
    shared_broker: SharedBroker<'_, B, N>,
    ports: Vec<Ports<B>>,
    caller: &mut DeskCaller<BrokerPlace<B>, N>,
) -> Option<Vec<Counts>> {
    match shared_broker.finish(rt, alloc, ports, caller) {
        Ok(ended) => Some(count(alloc, ended)),
        Err(left) => {
            left.abandon();
            None
        }
    }
}

/// All that a desk has; where an allocation failed for that, once more.
pub(crate) fn all_of<B: Broker>(
    desk: Desk<Envelope, BrokerPlace<B>>,
) -> Option<All<Envelope, BrokerPlace<B>>> {
    match desk.into_all() {
        Ok(all) => Some(all),
        Err(desk) => match desk.into_all() {
            Ok(all) => Some(all),
            Err(desk) => {
                desk.abandon_with(&discard);
                None
            }
        },
    }
}

/// Gives a broker up.
pub(crate) fn abandon<B: Broker, N: HistoryName>(shared_broker: SharedBroker<'_, B, N>) {
    let (groups, desk, _routes) = shared_broker.into_parts();
    desk.into_desk().abandon_with(&discard);
    groups.abandon();
}
