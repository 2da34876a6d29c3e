//! What all workers of a broker share by reference.
ghost use Rattle.std.specs.Prelude.{◌≡◌, [], IfOk};
ghost use mathlib.Core.List.{IsPrefix};
ghost use Rattle.call_history.specs.Callers.{joined};

use broker_groups::{Broker, BrokerGroups, BrokerPlace};
use call_history::HistoryName;
use gate_word::Gate;
use shared_desk::{DeskCaller, SharedDesk};
use shared_routes::{KnownRoutes, SharedRoutes};
use std::alloc::{AllocError, Global};
use std::marker::Model;

/// The gate, the groups, the desk and the routes of a broker, which its workers share by reference.
///
/// Contracts see it as its table of routes.
pub struct SharedBroker<'g, B: Broker, N: HistoryName> {
    pub(crate) gate: &'g Gate,
    pub(crate) groups: BrokerGroups<'g, B>,
    pub(crate) desk: SharedDesk<BrokerPlace<B>, N>,
    pub(crate) routes: SharedRoutes,
}

impl<'g, B: Broker, N: HistoryName> Model for SharedBroker<'g, B, N> {
    ghost use Rattle.std.specs.Prelude.{◌≡◌};
    ghost use Rattle.shared_routes.specs.Cells.{RoutesId};

    ghost Value = { RoutesId };

    ghost view = { λ h. h.routes };

    ghost invariant = { λ h. h.gate.now ≡ B.gate };
}

impl<'g, B: Broker, N: HistoryName> SharedBroker<'g, B, N> {
    /// What the workers of a broker share from now on.
    pub fn new(
        gate: &'g Gate,
        groups: BrokerGroups<'g, B>,
        desk: SharedDesk<BrokerPlace<B>, N>,
        routes: SharedRoutes,
    ) -> SharedBroker<'g, B, N>
        requires { gate.now ≡ B.gate }
        ensures { result ≡ routes }
    {
        SharedBroker {
            gate,
            groups,
            desk,
            routes,
        }
    }

    /// What a worker knows of the routes before it has learnt of any.
    ///
    /// # Errors
    ///
    /// Out of memory.
    pub fn observe_routes(&self, alloc: Global) -> Result<KnownRoutes<'_>, AllocError>
        ensures { IfOk result (λ known. known ≡ record { table = self.now; shares = []; told = [] }) }
    {
        KnownRoutes::new(alloc, &self.routes)
    }

    /// A caller of the desk takes in another: what it knows, its calls and its right to call.
    pub fn agree(
        &self,
        me: &mut DeskCaller<BrokerPlace<B>, N>,
        other: DeskCaller<BrokerPlace<B>, N>,
    )
        ensures joined { me.new ≡ joined me.old other me.new.calls }
        ensures mine { IsPrefix me.old.calls me.new.calls }
        ensures others { IsPrefix other.calls me.new.calls }
    {
        self.desk.agree(me, other);
    }

    /// Its parts, once no other thread has it.
    pub fn into_parts(
        self,
    ) -> (
        BrokerGroups<'g, B>,
        SharedDesk<BrokerPlace<B>, N>,
        SharedRoutes,
    )
        ensures { result.2 ≡ self.entry }
    {
        let SharedBroker {
            gate: _,
            groups,
            desk,
            routes,
        } = self;
        (groups, desk, routes)
    }
}
