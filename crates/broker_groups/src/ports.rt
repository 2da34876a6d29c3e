//! What a worker publishes through: a port of each of a broker's groups.
ghost use Rattle.std.specs.Prelude.{◌≡◌, ◌<◌};
ghost use Rattle.limits.specs.Limits.{most_groups};
ghost use Rattle.broker_groups.specs.Brokers.{AreBrokerPorts};
ghost use Rattle.broker_groups.specs.Offering.{OffersThrough, OffersTo, told_as};

use crate::broker::Broker;
use crate::groups::BrokerGroups;
use conn_supply::OfferRefusal;
use gate_word::Turn;
use group_jobs::{SharedMessage, Stamp};
use group_queue::{NotTaken, OfferError, Port};
use limits::MOST_GROUPS;
use std::marker::{Model, PhantomData};
use std::sync::Wait;

/// A port of each of a broker's groups. Who has it alone publishes through it, and it may go to another thread.
///
/// Contracts see it as the list of its ports, in the order of their groups' slots.
#[derive(Drop)]
pub struct Ports<B: Broker> {
    pub(crate) ports: Vec<Port<B::Seen>>,
    pub(crate) of: PhantomData<B>,
}

impl<B: Broker> Model for Ports<B> {
    ghost use Rattle.std.specs.Prelude.{List};
    ghost use Rattle.group_queue.specs.Ports.{PortState};
    ghost use Rattle.broker_groups.specs.Brokers.{AreBrokerPorts};

    ghost Value = { List PortState };

    ghost view = { λ p. p.ports.items };

    ghost invariant = { λ p. AreBrokerPorts B.group p.ports.items };
}

impl<B: Broker> Ports<B> {
    /// Its ports, in the order of their groups' slots.
    pub fn into_ports(self) -> Vec<Port<B::Seen>>
        ensures same { result.items ≡ self }
        ensures named { AreBrokerPorts B.group result.items }
    {
        self.ports
    }

    /// Offers a message to the group of a slot.
    ///
    /// # Errors
    ///
    /// [`OfferRefusal::LifeSpent`] and [`OfferRefusal::Full`] where the group refuses it so, as
    /// [`SharedGroup::offer`](group_queue::SharedGroup::offer) says, and [`OfferRefusal::Shut`] for a slot from [`MOST_GROUPS`] on,
    /// which has no group. The ports are unchanged then.
    pub fn offer<R: Wait>(
        &mut self,
        groups: &BrokerGroups<'_, B>,
        rt: &R,
        turn: &Turn,
        slot: u8,
        message: SharedMessage,
    ) -> Result<Stamp, OfferRefusal>
        requires { turn.now.gate ≡ B.gate }
        ensures { OffersTo B.group B.Seen.saw_main self.old slot message result self.new }
    {
        if slot >= MOST_GROUPS {
            return Err(OfferRefusal::Shut);
        }
        match self.offer_through(groups, rt, turn, slot, message) {
            Ok(stamp) => Ok(stamp),
            Err(refused) => Err(refusal_of(refused)),
        }
    }

    // The same of a slot that has a group.
    fn offer_through<R: Wait>(
        &mut self,
        groups: &BrokerGroups<'_, B>,
        rt: &R,
        turn: &Turn,
        slot: u8,
        message: SharedMessage,
    ) -> Result<Stamp, NotTaken>
        requires slot { slot < most_groups }
        requires turn { turn.now.gate ≡ B.gate }
        ensures { OffersThrough (B.group slot) B.Seen.saw_main self.old slot message result self.new }
    {
        let group = groups.group(slot);
        group.offer(rt, &mut self.ports[usize::from(slot)], turn, message)
    }
}

/// What a connection is told of a group's refusal.
fn refusal_of(refused: NotTaken) -> OfferRefusal
    ensures { result ≡ told_as refused.error }
{
    match refused.error {
        OfferError::Full => OfferRefusal::Full,
        OfferError::LifeSpent => OfferRefusal::LifeSpent,
    }
}
