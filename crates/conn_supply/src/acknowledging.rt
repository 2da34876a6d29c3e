//! What a PUBACK does (section 3.4).
ghost use Rattle.std.specs.Prelude.{◌≡◌, false};
ghost use Rattle.conn_supply.specs.Acknowledging.{Acknowledges, SettlesIn};
ghost use Rattle.conn_supply.specs.Holding.{messages};
ghost use Rattle.conn_supply.specs.Ready.{IsSoundSession};

use crate::supply::{HoldingPlace, Supply};
use conn_rules::fate_of;
use group_jobs::Envelope;
use member_window::Window;
use mqtt_packet::{PacketIdentifier, ReasonCode};
use session_desk::{Membership, Session};

/// A PUBACK settles the message under its identifier: it is acknowledged, or refused by a code from 80 hex on. A PUBACK whose
/// identifier the session does not hold is ignored. What the session holds is out at its place, then and from then on.
pub fn acknowledge<P: HoldingPlace, S: Supply<P>>(
    supply: &mut S,
    session: &mut Session<Envelope, P>,
    identifier: PacketIdentifier,
    code: ReasonCode,
)
    requires { IsSoundSession P.has_out session.old }
    ensures acknowledged { Acknowledges S.call supply.old session.old identifier code session.new supply.new }
    ensures sound { IsSoundSession P.has_out session.new }
    ensures visiting { S.visiting supply.new ≡ S.visiting supply.old }
{
    match &mut session.membership {
        Membership::NotMember => {}
        Membership::Member(place) => settle(supply, place, &mut session.window, identifier, code),
        Membership::Leaving(place) => settle(supply, place, &mut session.window, identifier, code),
    }
}

/// The place settles the message under this identifier of the window, if there is one.
fn settle<P: HoldingPlace, S: Supply<P>>(
    supply: &mut S,
    place: &mut P,
    window: &mut Window<Envelope>,
    identifier: PacketIdentifier,
    code: ReasonCode,
)
    requires going { window.old.retired ≡ false }
    requires out { P.has_out place.old (messages window.old) }
    ensures settled { SettlesIn S.call supply.old place.old window.old identifier code place.new window.new supply.new }
    ensures going { window.new.retired ≡ false }
    ensures out { P.has_out place.new (messages window.new) }
    ensures visiting { S.visiting supply.new ≡ S.visiting supply.old }
{
    if let Some(envelope) = window.ack(identifier.get()) {
        supply.settle(place, envelope, fate_of(code));
    }
}
