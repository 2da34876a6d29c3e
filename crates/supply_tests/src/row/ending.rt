//! How the broker of the row ends.

use crate::broker::calls::message;
use crate::broker::ending::{Counts, all_of, discard, let_go_of_all, outcome_of};
use crate::broker::worker::keep;
use broker_groups::{Broker, BrokerGroups, BrokerPlace, Ended, Ports, Unended};
use call_history::HistoryName;
use group_jobs::{Envelope, Stamp};
use group_queue::Nobody;
use session_desk::All;
use shared_supply::SharedBroker;
use std::alloc::Global;
use std::sync::Wait;

/// With what the groups are ended: without the far place, with an envelope too many, or with all that there is.
#[derive(Clone, Copy, Debug, PartialEq, Eq)]
pub(crate) enum Ending {
    WithoutPlace,
    WithStranger,
    Whole,
}

/// What is out of the desk after the calls.
pub(crate) struct Out<B: Broker> {
    pub(crate) near: BrokerPlace<B>,
    pub(crate) far: BrokerPlace<B>,
    pub(crate) held: Option<Envelope>,
}

/// Ends the groups; where an allocation failed for that, once more.
fn finish<'g, B: Broker<Seen = Nobody>, R: Wait>(
    rt: &R,
    alloc: Global,
    groups: BrokerGroups<'g, B>,
    ports: Vec<Ports<B>>,
    places: Vec<BrokerPlace<B>>,
    held: Vec<Envelope>,
) -> Option<Ended<'g>> {
    match groups.finish(rt, alloc, ports, places, held) {
        Ok(ended) => Some(ended),
        Err(
            Unended {
                groups,
                ports,
                places,
                held,
            },
        ) => match groups.finish(rt, alloc, ports, places, held) {
            Ok(ended) => Some(ended),
            Err(unended) => {
                unended.abandon();
                None
            }
        },
    }
}

/// What became of the messages of the first group, or the number of the refusal to end it; nothing where an allocation failed in a group.
fn first_of(ended: Ended<'_>) -> Option<Result<Counts, u16>> {
    let Ended {
        mut answers,
        strangers,
    } = ended;
    let_go_of_all(strangers);
    let mut first = None;
    let mut is_refused = false;
    'answers: while let Some(answer) = answers.pop() {
        let outcome = outcome_of(answer);
        is_refused = is_refused || outcome == Err(506);
        first = Some(outcome);
    }
    answers.destroy_empty();
    if is_refused { None } else { first }
}

/// Puts an envelope to the others, and says whether there was memory for it.
fn put(held: &mut Vec<Envelope>, envelope: Option<Envelope>) -> bool {
    match envelope {
        Some(envelope) => match held.push(envelope) {
            Ok(()) => true,
            Err(refused) => {
                discard(refused.value);
                false
            }
        },
        None => true,
    }
}

/// Puts a place to the others.
fn put_place<B: Broker>(places: &mut Vec<BrokerPlace<B>>, place: BrokerPlace<B>) {
    if let Err(refused) = places.push(place) {
        drop(refused);
    }
}

/// An envelope of a message that nobody offered.
fn foreign(alloc: Global) -> Option<Envelope> {
    let stamp = Stamp {
        group: 0,
        port: 0,
        number: 9,
    };
    Some(Envelope::new(stamp, 1, message(alloc)?))
}

/// Puts what is out of the desk to what it has, as the ending asks for it, and says whether there was memory for the envelopes.
fn put_out<B: Broker>(
    alloc: Global,
    places: &mut Vec<BrokerPlace<B>>,
    envelopes: &mut Vec<Envelope>,
    out: Out<B>,
    ending: Ending,
) -> bool {
    let Out { near, far, held } = out;
    put_place(places, near);
    match ending {
        Ending::WithoutPlace => drop(far),
        Ending::WithStranger | Ending::Whole => put_place(places, far),
    }
    let stranger = match ending {
        Ending::WithStranger => foreign(alloc),
        Ending::WithoutPlace | Ending::Whole => None,
    };
    let is_put = put(envelopes, held);
    put(envelopes, stranger) && is_put
}

/// Lets go of what is out of the desk.
fn let_go_of_out<B: Broker>(out: Out<B>) {
    let Out {
        near: _,
        far: _,
        held,
    } = out;
    if let Some(envelope) = held {
        discard(envelope);
    }
}

/// Ends the broker.
pub(crate) fn end<B: Broker<Seen = Nobody>, N: HistoryName, R: Wait>(
    rt: &R,
    alloc: Global,
    shared_broker: SharedBroker<'_, B, N>,
    ports: Ports<B>,
    out: Out<B>,
    ending: Ending,
) -> Option<Result<Counts, u16>> {
    let (groups, desk, _routes) = shared_broker.into_parts();
    let Some(
        All {
            mut places,
            mut envelopes,
        },
    ) = all_of(desk.into_desk())
    else {
        let_go_of_out(out);
        groups.abandon();
        return None;
    };
    let mut all_ports = Vec::new(alloc);
    keep(&mut all_ports, ports);
    let is_put = put_out(alloc, &mut places, &mut envelopes, out, ending);
    let told = match finish(rt, alloc, groups, all_ports, places, envelopes) {
        Some(ended) => first_of(ended),
        None => None,
    };
    if is_put { told } else { None }
}
