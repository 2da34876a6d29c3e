//! How a broker ends, once its workers have left.
ghost use Rattle.std.specs.Prelude.{◌≡◌, length, IfOk, IfErr, MatchResult};
ghost use mathlib.Core.List.{IsPrefix};
ghost use Rattle.call_history.specs.Callers.{all_parts};
ghost use Rattle.call_history.specs.Numbers.{IsEachOnce};
ghost use Rattle.shared_supply.specs.Endings.{IsAllBehind, IsEnded, IsLedTo, IsLeft};

use crate::discarding::discard;
use crate::shared_broker::SharedBroker;
use broker_groups::{Broker, BrokerGroups, BrokerPlace, Ended, Ports, Unended};
use call_history::HistoryName;
use group_jobs::Envelope;
use group_queue::LawfulWitness;
use session_desk::{All, Desk};
use shared_desk::DeskCaller;
use shared_routes::SharedRoutes;
use std::alloc::Global;
use std::sync::Wait;

/// What a broker has at its end: its groups and its routes, all places, and the messages that its sessions held.
pub struct Emptied<'g, B: Broker> {
    pub groups: BrokerGroups<'g, B>,
    pub routes: SharedRoutes,
    pub places: Vec<BrokerPlace<B>>,
    pub held: Vec<Envelope>,
}

/// A broker whose desk was not emptied, as an allocation failed.
pub struct Unemptied<'g, B: Broker> {
    pub desk: Desk<Envelope, BrokerPlace<B>>,
    pub groups: BrokerGroups<'g, B>,
    pub routes: SharedRoutes,
}

/// A broker that was not ended, as an allocation failed, with all that was given to end it.
pub enum StillOpen<'g, B: Broker> {
    /// Its desk has its sessions and its places.
    Desk {
        desk: Desk<Envelope, BrokerPlace<B>>,
        groups: BrokerGroups<'g, B>,
        routes: SharedRoutes,
        ports: Vec<Ports<B>>,
    },
    /// Its desk gave the places, and the messages that sessions held.
    Groups {
        unended: Unended<'g, B>,
        routes: SharedRoutes,
    },
}

impl<'g, B: Broker> StillOpen<'g, B> {
    /// Gives all of it up, without a word of what became of the messages.
    pub fn abandon(self) {
        match self {
            StillOpen::Desk {
                desk,
                groups,
                routes: _,
                ports: _,
            } => {
                desk.abandon_with(&discard);
                groups.abandon();
            }
            StillOpen::Groups { unended, routes: _ } => unended.abandon(),
        }
    }
}

impl<'g, B: Broker, N: HistoryName> SharedBroker<'g, B, N> {
    /// Takes the broker apart: its desk gives all places, and the messages that its sessions held. The caller then knows all calls that were made of the desk, and by
    /// these it had just those places and messages. Where it has the whole right to call, each of these is its own, or of one that it took in (`once`).
    ///
    /// # Errors
    ///
    /// [`Unemptied`]: an allocation failed. All that it had comes back, with the desk as these calls led to it.
    pub fn empty(
        self,
        me: &mut DeskCaller<BrokerPlace<B>, N>,
    ) -> Result<Emptied<'g, B>, Unemptied<'g, B>>
        ensures before { IsPrefix me.old.calls me.new.calls }
        ensures same { me.new ≡ record me.old { calls = me.new.calls } }
        ensures once { me.old.parts ≡ all_parts → IsEachOnce me.old.own (length me.new.calls) }
        ensures all { IfOk result (λ emptied. IsAllBehind me.new.calls emptied.places.items emptied.held.items) }
        ensures desk { IfErr result (λ left. IsLedTo me.new.calls left.desk) }
        ensures routes { MatchResult result (λ emptied. emptied.routes ≡ self.entry) (λ left. left.routes ≡ self.entry) }
    {
        let (groups, desk, routes) = self.into_parts();
        match desk.finish(me).into_all() {
            Ok(All { places, envelopes }) => Ok(Emptied {
                groups,
                routes,
                places,
                held: envelopes,
            }),
            Err(desk) => Err(Unemptied {
                desk,
                groups,
                routes,
            }),
        }
    }
}

impl<'g, B: Broker, N: HistoryName> SharedBroker<'g, B, N>
where
    B::Seen: LawfulWitness,
{
    /// Ends the broker: its desk gives all places, and the messages that its sessions held, and each group ends with what is its own, as
    /// [`BrokerGroups::finish`] says, and the caller knows what [`SharedBroker::empty`] tells it. A step of a queue may wait for another thread's.
    ///
    /// # Errors
    ///
    /// [`StillOpen`]: an allocation failed. All that was given comes back.
    pub fn finish<R: Wait>(
        self,
        rt: &R,
        alloc: Global,
        ports: Vec<Ports<B>>,
        me: &mut DeskCaller<BrokerPlace<B>, N>,
    ) -> Result<Ended<'g, B::Seen>, StillOpen<'g, B>>
        ensures before { IsPrefix me.old.calls me.new.calls }
        ensures same { me.new ≡ record me.old { calls = me.new.calls } }
        ensures once { me.old.parts ≡ all_parts → IsEachOnce me.old.own (length me.new.calls) }
        ensures ended { IfOk result (λ ended. IsEnded B.group me.new.calls ports.items ended.answers.items ended.strangers.items) }
        ensures left { IfErr result (IsLeft me.new.calls self.entry ports.items) }
    {
        match self.empty(me) {
            Ok(
                Emptied {
                    groups,
                    routes,
                    places,
                    held,
                },
            ) => match groups.finish(rt, alloc, ports, places, held) {
                Ok(ended) => Ok(ended),
                Err(unended) => Err(StillOpen::Groups { unended, routes }),
            },
            Err(
                Unemptied {
                    desk,
                    groups,
                    routes,
                },
            ) => Err(StillOpen::Desk {
                desk,
                groups,
                routes,
                ports,
            }),
        }
    }
}
