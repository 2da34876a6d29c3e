//! What is handed out after the reply (sections 4.4, 4.6, 4.8.2 and 4.9).
ghost use Rattle.std.specs.Prelude.{◌≡◌, ◌<◌, ◌∷◌, ◌++◌, [], true, false, ℕ, List, Some, None, Ok, OnOk, OnErr, IfOk, MatchOption, MatchResult};
ghost use Rattle.mqtt_packet.specs.declared.packet.Packet.{Packet};
ghost use Rattle.group_jobs.specs.Stamps.{Held, under};
ghost use Rattle.member_window.specs.Identifiers.{identifiers, IsLeastFree};
ghost use Rattle.member_window.specs.Contents.{held_of, HasRoom, IsNextResend, after_put, after_resend};
ghost use Rattle.conn_rules.specs.HandOuts.{is_discarded};
ghost use Rattle.conn_rules.specs.Packets.{job};
ghost use Rattle.session_desk.specs.declared.session.Membership.TheVariants.{Leaving};
ghost use Rattle.conn_supply.specs.Holding.{messages, AreOut, FindsOut};
ghost use Rattle.conn_supply.specs.HandOuts.{SendsAgain, SendsSomeAgain, AsksFor, IsRefused, SendsOne, SendsNone, SendsFresh, LeavesWith, HandsFresh, HandsOut, KeepsHeld, HoldsMore, TakesSome, HandsSome};

use crate::supply::{HoldingPlace, NoMemory, Supply};
use conn_rules::{HandOutTerms, is_discarded, job};
use group_jobs::{Envelope, Fate};
use member_window::Window;
use mqtt_packet::{Packet, PacketIdentifier, SubscriptionIdentifier};
use session_desk::Membership;
use std::mem;

/// How many messages are discarded at most where one is looked for: more than can wait in a group (profile).
const MOST_DISCARDS: u32 = 131_072;

/// Hands out to a session what is due: what waits is sent again; then a member is handed messages while there is room, under the
/// session's Subscription Identifier (section 3.3.2.3.8), and who leaves is no member once it holds nothing. The packets go after those
/// that are there. A fresh message that has expired (section 3.3.2.3.3), or whose PUBLISH is longer than the client takes (section 3.1.2.11.4), is discarded as soon as it
/// was handed out: it is settled so in its group. What is sent again goes out also where it has expired since.
///
/// A visit of the supply is going on. What the session holds is out at its place, then and from then on.
///
/// # Errors
///
/// Lack of memory. Nothing that the session holds is lost.
pub fn hand_out<P: HoldingPlace, S: Supply<P>>(
    supply: &mut S,
    membership: &mut Membership<P>,
    terms: &HandOutTerms,
    window: &mut Window<Envelope>,
    packets: &mut Vec<Packet>,
) -> Result<(), NoMemory>
    requires out { AreOut P.has_out membership.old (messages window.old) }
    requires visiting { S.visiting supply.old ≡ true }
    ensures handed { MatchResult result
        (λ _. (sent : List Packet) × (packets.new.items ≡ packets.old.items ++ sent)
        × HandsOut S.call terms.now supply.old membership.old window.old sent membership.new window.new supply.new)
        (λ _. HandsSome S.call terms.now supply.old membership.old window.old membership.new window.new supply.new) }
    ensures sound { window.new.retired ≡ window.old.retired }
    ensures out { AreOut P.has_out membership.new (messages window.new) }
    ensures visiting { S.visiting supply.new ≡ S.visiting supply.old }
{
    if let Err(NoMemory) = send_again(window, terms.at, packets) {
        return Err(NoMemory);
    }
    match membership {
        Membership::NotMember => Ok(()),
        Membership::Member(place) => match send_fresh(supply, place, terms, window, packets) {
            Ok(()) => Ok(()),
            Err(NoMemory) => Err(NoMemory),
        },
        Membership::Leaving(_) => {
            leave(supply, membership, window);
            Ok(())
        }
    }
}

/// Sends again what waits, while the quota lets it.
fn send_again(
    window: &mut Window<Envelope>,
    now: u64,
    packets: &mut Vec<Packet>,
) -> Result<(), NoMemory>
    ensures sent { OnOk result ((sent : List Packet) × (packets.new.items ≡ packets.old.items ++ sent) × SendsAgain now window.old sent window.new) }
    ensures begun { OnErr result ((again : List (ℕ × Held)) × SendsSomeAgain window.old again window.new) }
    ensures kept { KeepsHeld window.old window.new }
{
    packets.reserve(1)?;
    match next_again(window, now) {
        Ok(Some(packet)) => {
            packets.push_reserved(packet);
            send_again(window, now, packets)
        }
        Ok(None) => Ok(()),
        Err(NoMemory) => Err(NoMemory),
    }
}

/// Sends the oldest message that waits again, where there is one and the quota lets it, and gives its packet.
#[inline(always)]
fn next_again(window: &mut Window<Envelope>, now: u64) -> Result<Option<Packet>, NoMemory>
    ensures sent { IfOk result (λ sent. MatchOption sent
        (IsNextResend window.old None × (window.new ≡ window.old))
        (λ packet. (entry : ℕ × Held) × IsNextResend window.old (Some entry) × (window.new ≡ after_resend window.old (Some entry))
        × (packet ≡ job now true entry.1.message entry.1.subscription entry.0))) }
    ensures begun { OnErr result ((again : List (ℕ × Held)) × SendsSomeAgain window.old again window.new) }
    ensures kept { KeepsHeld window.old window.new }
{
    let _held = window.len();
    let Some((identifier, envelope)) = window.next_resend() else {
        return Ok(None);
    };
    match job(
        now,
        true,
        envelope.message(),
        envelope.subscription(),
        identifier_of(identifier),
    ) {
        Ok(packet) => Ok(Some(packet)),
        Err(_) => Err(NoMemory),
    }
}

/// The packet identifier of this number.
fn identifier_of(number: u16) -> PacketIdentifier
    requires { 0 < number }
    ensures { result ≡ number }
{
    match PacketIdentifier::new(number) {
        Some(identifier) => identifier,
        None => unreachable!(),
    }
}

/// Hands messages to a place, and sends them, while there is room and the supply allows one more.
#[tactic(auto, using(crate::proofs::Fresh::one_more_sent))]
fn send_fresh<P: HoldingPlace, S: Supply<P>>(
    supply: &mut S,
    place: &mut P,
    terms: &HandOutTerms,
    window: &mut Window<Envelope>,
    packets: &mut Vec<Packet>,
) -> Result<(), NoMemory>
    requires out { P.has_out place.old (messages window.old) }
    requires visiting { S.visiting supply.old ≡ true }
    ensures sent { OnOk result ((sent : List Packet) × (packets.new.items ≡ packets.old.items ++ sent)
        × SendsFresh S.call terms.now supply.old place.old window.old sent place.new window.new supply.new) }
    ensures kept { OnErr result ((taken : List Held) × TakesSome S.call terms.now supply.old place.old window.old taken place.new window.new supply.new) }
    ensures sound { window.new.retired ≡ window.old.retired }
    ensures out { P.has_out place.new (messages window.new) }
    ensures visiting { S.visiting supply.new ≡ S.visiting supply.old }
{
    packets.reserve(1)?;
    let Some(packet) = next_fresh(supply, place, terms, window)? else {
        return Ok(());
    };
    packets.push_reserved(packet);
    match send_fresh(supply, place, terms, window, packets) {
        Ok(()) => Ok(()),
        Err(NoMemory) => Err(NoMemory),
    }
}

/// Hands a message to a place, where there is room, the supply allows one more and has one that the client may be sent, and gives its packet. What it
/// may not be sent is discarded on the way.
fn next_fresh<P: HoldingPlace, S: Supply<P>>(
    supply: &mut S,
    place: &mut P,
    terms: &HandOutTerms,
    window: &mut Window<Envelope>,
) -> Result<Option<Packet>, NoMemory>
    requires out { P.has_out place.old (messages window.old) }
    requires visiting { S.visiting supply.old ≡ true }
    ensures sent { IfOk result (λ sent. MatchOption sent
        (SendsNone S.call terms.now supply.old place.old window.old place.new window.new supply.new)
        (λ packet. SendsOne S.call terms.now supply.old place.old window.old packet place.new window.new supply.new × HoldsMore window.old window.new)) }
    ensures kept { OnErr result ((taken : List Held) × TakesSome S.call terms.now supply.old place.old window.old taken place.new window.new supply.new) }
    ensures sound { window.new.retired ≡ window.old.retired }
    ensures out { P.has_out place.new (messages window.new) }
    ensures visiting { S.visiting supply.new ≡ S.visiting supply.old }
{
    if !window.room() {
        return Ok(None);
    }
    'messages: for _ in 0..MOST_DISCARDS {
        if !supply.may_take(place) {
            return Ok(None);
        }
        let Some(envelope) = ask(supply, place)? else {
            return Ok(None);
        };
        match is_discarded(envelope.message(), terms) {
            Ok(true) => supply.settle(place, envelope, Fate::Discarded),
            Ok(false) => match put(window, envelope, terms) {
                Ok(packet) => return Ok(Some(packet)),
                Err(NoMemory) => return Err(NoMemory),
            },
            Err(_) => {
                hold(window, envelope, terms.subscription);
                return Err(NoMemory);
            }
        }
    }
    Ok(None)
}

/// Puts a message into the window, which has room, and gives the packet in which it goes out under these terms.
#[inline(always)]
fn put(
    window: &mut Window<Envelope>,
    envelope: Envelope,
    terms: &HandOutTerms,
) -> Result<Packet, NoMemory>
    requires { HasRoom window.old }
    ensures put { (identifier : ℕ) × IsLeastFree (identifiers (held_of window.old)) identifier
        × (window.new ≡ after_put window.old identifier (under terms.now.subscription envelope))
        × IfOk result (λ packet. packet ≡ job terms.now.at false envelope.message terms.now.subscription identifier) }
    ensures progress { HoldsMore window.old window.new }
    ensures sound { window.new.retired ≡ window.old.retired }
    ensures held { messages window.new ≡ messages window.old ++ under terms.now.subscription envelope ∷ [] }
{
    let shared = envelope.message().share();
    let identifier = hold(window, envelope, terms.subscription);
    Ok(job(terms.at, false, &*shared?, terms.subscription, identifier)?)
}

/// Puts a message into the window, which has room, under that Subscription Identifier, and gives its Packet Identifier.
#[inline(always)]
fn hold(
    window: &mut Window<Envelope>,
    envelope: Envelope,
    subscription: Option<SubscriptionIdentifier>,
) -> PacketIdentifier
    requires { HasRoom window.old }
    ensures free { IsLeastFree (identifiers (held_of window.old)) result }
    ensures put { window.new ≡ after_put window.old result (under subscription envelope) }
    ensures progress { HoldsMore window.old window.new }
    ensures sound { window.new.retired ≡ window.old.retired }
    ensures held { messages window.new ≡ messages window.old ++ under subscription envelope ∷ [] }
{
    let _held = window.len();
    match window.put(envelope.under(subscription)) {
        Ok(identifier) => identifier_of(identifier),
        Err(_back) => unreachable!(),
    }
}

/// Asks for a message for a place: one that was given back, or else the oldest that is queued.
fn ask<P: HoldingPlace, S: Supply<P>>(
    supply: &mut S,
    place: &mut P,
) -> Result<Option<Envelope>, NoMemory>
    requires visiting { S.visiting supply.old ≡ true }
    ensures asked { IfOk result (λ found. AsksFor S.call supply.old place.old found place.new supply.new) }
    ensures refused { OnErr result (IsRefused S.call supply.old place.old place.new supply.new) }
    ensures out { FindsOut P.has_out place.old result place.new }
    ensures visiting { S.visiting supply.new ≡ S.visiting supply.old }
{
    match supply.take_back(place)? {
        Some(envelope) => Ok(Some(envelope)),
        None => supply.take(place),
    }
}

/// Whoever leaves is no member once it holds nothing.
fn leave<P: HoldingPlace, S: Supply<P>>(
    supply: &mut S,
    membership: &mut Membership<P>,
    window: &Window<Envelope>,
)
    requires leaving { (place : P) × (membership.old ≡ Leaving place) }
    requires out { AreOut P.has_out membership.old (messages window.now) }
    ensures left { (place : P) → membership.old ≡ Leaving place → LeavesWith S.call supply.old place window.now membership.new supply.new }
    ensures out { AreOut P.has_out membership.new (messages window.now) }
    ensures visiting { S.visiting supply.new ≡ S.visiting supply.old }
{
    if !window.is_empty() {
        return;
    }
    match mem::replace(membership, Membership::NotMember) {
        Membership::Leaving(place) => supply.take_place(place),
        _other => unreachable!(),
    }
}
