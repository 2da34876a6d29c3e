//! The supply of a broker on one thread.
ghost use Rattle.std.specs.Prelude.{◌≡◌, ◌<◌, ◌≤◌, length, Some, None, slice_get, IfOk, MatchOption, false};
ghost use Rattle.limits.specs.Limits.{most_groups};
ghost use Rattle.mqtt_topic.specs.Routes.{AreDistinct};
ghost use Rattle.local_broker.specs.Broker.{IsNewBroker, IsClosed, is_open};
ghost use Rattle.local_broker.specs.Calls.{Closes};
ghost use Rattle.local_broker.specs.Reporting.{IsLineOf, TellsLine};

use crate::discarding::discard;
use crate::groups::close_each;
use crate::opening::{open_desk, open_groups};
use crate::place::LocalPlace;
use conn_supply::NoMemory;
use group_jobs::Envelope;
use local_group::LocalGroup;
use mqtt_topic::{Routes, Share};
use session_desk::Desk;
use std::alloc::Global;
use std::marker::Model;

/// What the connections of a broker on one thread share: the desk of sessions, the routes, and eight groups of 64 ports and 32
/// places each. It is open until [`LocalSupply::close`].
///
/// Contracts see it as a `Broker`.
pub struct LocalSupply {
    pub(crate) desk: Desk<Envelope, LocalPlace>,
    pub(crate) routes: Routes,
    // One for each slot.
    pub(crate) groups: Vec<LocalGroup>,
}

impl Model for LocalSupply {
    ghost use Rattle.std.specs.Coded.{codes};
    ghost use Rattle.session_desk.specs.Layout.{books_code};
    ghost use Rattle.local_broker.specs.Broker.{Broker, IsSound, broker_code};

    ghost Value = { Broker };

    ghost coded = { broker_code (books_code (Prim.hlevel codes) (Prim.hlevel codes)) (Prim.hlevel codes) (Prim.hlevel codes) };

    ghost view = { λ s. record { desk = s.desk; routes = s.routes; groups = s.groups.items } };

    ghost invariant = { λ s. IsSound (record { desk = s.desk; routes = s.routes; groups = s.groups.items }) };
}

impl LocalSupply {
    /// A broker's in which nothing happened yet: no session, all places free, these shares bound, and eight groups, in the queue
    /// of each of which so many messages may wait.
    ///
    /// # Errors
    ///
    /// Out of memory.
    pub fn open(alloc: Global, capacity: usize, routes: Routes) -> Result<LocalSupply, NoMemory>
        ensures { IfOk result (IsNewBroker capacity routes) }
    {
        let groups = open_groups(alloc, capacity)?;
        let desk = open_desk(alloc)?;
        Ok(LocalSupply {
            desk,
            routes,
            groups,
        })
    }

    /// Closes all groups: nothing is accepted and handed out any more. What was handed out may still be settled and given back. A
    /// second close changes nothing. It takes no memory.
    pub fn close(&mut self)
        ensures closes { Closes self.old self.new }
        ensures closed { IsClosed self.new }
        ensures told { is_open self.new ≡ false }
    {
        close_each(&mut self.groups);
    }

    /// Lets go of the broker, and of all that its sessions and its groups have. It takes no memory.
    pub fn abandon(self) {
        let LocalSupply {
            desk,
            routes: _,
            groups: _,
        } = self;
        desk.abandon_with(&discard);
    }

    /// The shares that are bound, the one of slot n at place n.
    pub fn shares(&self) -> &[Share]
        ensures value { result.now ≡ self.now.routes }
        ensures few { length result.now ≤ most_groups }
        ensures distinct { AreDistinct result.now }
    {
        self.routes.shares()
    }

    /// The group of this slot, below 8: what happened in it, and what became of its messages.
    pub fn group(&self, slot: u8) -> &LocalGroup
        requires { slot < most_groups }
        ensures { slice_get self.now.groups slot ≡ Some result.now }
    {
        &self.groups[usize::from(slot)]
    }

    /// The line of a report: what became of the messages of the share that is bound to this slot; `None` where none is.
    ///
    /// # Errors
    ///
    /// Out of memory.
    pub fn line(&self, alloc: Global, slot: u8) -> Result<Option<Vec<u8>>, NoMemory>
        ensures { IfOk result (λ told. MatchOption told (slice_get self.now.routes slot ≡ None) (λ line. TellsLine self.now slot line.items)) }
    {
        let Some(share) = self.routes.shares().get(usize::from(slot)) else {
            return Ok(None);
        };
        let line = line_of(alloc, self.group(slot), share)?;
        Ok(Some(line))
    }
}

/// The line of the report of a group.
fn line_of(alloc: Global, group: &LocalGroup, share: &Share) -> Result<Vec<u8>, NoMemory>
    ensures { IfOk result (λ line. IsLineOf share.now group.now line.items) }
{
    let report = group.report(alloc)?;
    Ok(report.line(alloc, share)?)
}
