//! The calls of one group, as a connection is answered them.
ghost use Rattle.std.specs.Prelude.{◌≡◌, ◌<◌, ◌↔◌, IsTrue};
ghost use Rattle.limits.specs.Limits.{most_members, most_ports};
ghost use Rattle.local_broker.specs.Groups.{ClosesEach, told_as, IsOffered, HandsOut, HandsOutAgain, IsOutAt, IsSettled, IsGivenBack};

use crate::discarding::discard;
use conn_supply::{NoMemory, OfferRefusal};
use group_jobs::{Envelope, Fate, SharedMessage, Stamp};
use local_group::{LocalGroup, NotTaken, OfferError, TakeError};

/// Offers a message through a port.
pub(crate) fn offer(
    group: &mut LocalGroup,
    port: u8,
    message: SharedMessage,
) -> Result<Stamp, OfferRefusal>
    requires { port < most_ports }
    ensures { IsOffered group.old port message result group.new }
{
    match group.offer(port, message) {
        Ok(stamp) => Ok(stamp),
        Err(refused) => Err(refusal_of(refused)),
    }
}

/// What a connection is told of a group's refusal.
fn refusal_of(refused: NotTaken) -> OfferRefusal
    ensures { result ≡ told_as refused.why }
{
    match refused.why {
        OfferError::Shut => OfferRefusal::Shut,
        OfferError::LifeSpent => OfferRefusal::LifeSpent,
        OfferError::Full => OfferRefusal::Full,
        OfferError::Memory => OfferRefusal::Memory,
    }
}

/// Hands the oldest queued message to a place.
pub(crate) fn take(group: &mut LocalGroup, place: u8) -> Result<Option<Envelope>, NoMemory>
    requires { place < most_members }
    ensures { HandsOut group.old place result group.new }
{
    match group.take(place) {
        Ok(envelope) => Ok(envelope),
        Err(TakeError::Shut) => Ok(None),
        Err(TakeError::Memory) => Err(NoMemory),
    }
}

/// Hands the message that was given back first to a place.
pub(crate) fn take_back(group: &mut LocalGroup, place: u8) -> Result<Option<Envelope>, NoMemory>
    requires { place < most_members }
    ensures { HandsOutAgain group.old place result group.new }
{
    match group.take_back(place) {
        Ok(envelope) => Ok(envelope),
        Err(TakeError::Shut) => Ok(None),
        Err(TakeError::Memory) => Err(NoMemory),
    }
}

/// Whether the place was handed this message, and has neither settled it nor given it back.
pub(crate) fn is_out_at(group: &LocalGroup, place: u8, envelope: &Envelope) -> bool
    ensures { IsTrue result ↔ IsOutAt group.now place envelope.now }
{
    envelope.place() == place && group.is_held(envelope)
}

/// The place settles a message that it has; any other is let go.
pub(crate) fn settle(group: &mut LocalGroup, place: u8, envelope: Envelope, fate: Fate)
    ensures { IsSettled group.old place envelope fate group.new }
{
    if is_out_at(group, place, &envelope) {
        group.settle(envelope, fate);
    } else {
        discard(envelope);
    }
}

/// The place gives a message back that it has; any other is let go.
pub(crate) fn give_back(group: &mut LocalGroup, place: u8, envelope: Envelope)
    ensures { IsGivenBack group.old place envelope group.new }
{
    if is_out_at(group, place, &envelope) {
        group.give_back(envelope);
    } else {
        discard(envelope);
    }
}

/// Closes every group.
pub(crate) fn close_each(groups: &mut Vec<LocalGroup>)
    ensures { ClosesEach groups.old.items groups.new.items }
{
    'groups: for slot in 0..groups.len() {
        groups[slot].close();
    }
}
