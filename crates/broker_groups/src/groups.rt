//! The groups of a broker, which threads share by reference.
ghost use Rattle.std.specs.Prelude.{◌≡◌, ◌<◌};
ghost use Rattle.limits.specs.Limits.{most_groups};
ghost use Rattle.broker_groups.specs.Brokers.{AreBrokerGroups};

use crate::broker::Broker;
use crate::opening::abandon_all;
use group_queue::SharedGroup;
use std::marker::{Model, PhantomData};

/// The groups of a broker, one for each slot, after the broker's gate.
///
/// Contracts see them as a list of `GroupId`, in the order of slots.
pub struct BrokerGroups<'a, B: Broker> {
    pub(crate) groups: Vec<SharedGroup<'a, B::Seen>>,
    pub(crate) of: PhantomData<B>,
}

impl<'a, B: Broker> Model for BrokerGroups<'a, B> {
    ghost use Rattle.std.specs.Prelude.{List};
    ghost use Rattle.group_queue.specs.Ports.{GroupId};
    ghost use Rattle.broker_groups.specs.Brokers.{AreBrokerGroups};

    ghost Value = { List GroupId };

    ghost view = { λ g. g.groups.items };

    ghost invariant = { λ g. AreBrokerGroups B.gate B.group g.groups.items };
}

impl<'a, B: Broker> BrokerGroups<'a, B> {
    /// The group of a slot.
    pub fn group(&self, slot: u8) -> &SharedGroup<'a, B::Seen>
        requires { slot < most_groups }
        ensures group { result.now ≡ B.group slot }
        ensures slot { result.now.slot ≡ slot }
        ensures gate { result.now.gate ≡ B.gate }
    {
        &self.groups[usize::from(slot)]
    }

    /// The groups, in the order of slots.
    pub fn into_groups(self) -> Vec<SharedGroup<'a, B::Seen>>
        ensures same { result.items ≡ self.entry }
        ensures named { AreBrokerGroups B.gate B.group result.items }
    {
        let BrokerGroups { groups, of: _ } = self;
        groups
    }

    /// Gives all of them up, without a word of what became of their messages.
    pub fn abandon(self) {
        let BrokerGroups { groups, of: _ } = self;
        abandon_all(groups);
    }
}
