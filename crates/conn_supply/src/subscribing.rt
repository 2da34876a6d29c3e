//! The answers to a SUBSCRIBE and to an UNSUBSCRIBE (sections 3.8 to 3.11).
ghost use Rattle.std.specs.Prelude.{◌≡◌, ◌<◌, ◌≤◌, ◌+◌, ◌++◌, ◌↔◌, List, ℕ, Option, Some, length, IsTrue, true, MatchResult, vec_len, vec_capacity, ◌==◌};
ghost use Rattle.std.specs.List.{list_any};
ghost use Rattle.mqtt_topic.specs.Names.{share_of};
ghost use Rattle.users.specs.Rights.{may_work};
ghost use Rattle.conn_supply.specs.SupplyCalls.SupplyCall.{Find};
ghost use Rattle.conn_supply.specs.Holding.{StayOut};
ghost use Rattle.conn_supply.specs.Subscribing.{IsLent, EntersAs, Joins, JoinsIf, AnswersEntry, AnswersEntries, AnswersFirst, AnswersSome, IsUnbound, LacksMemory, Subscribes, subscription_after, LeavesBy, LeavesByAll, Unsubscribes};
ghost use Rattle.session_desk.specs.declared.session.Membership.TheVariants.{NotMember};
ghost use Rattle.conn_rules.specs.Packets.{suback, unsuback};
ghost use Rattle.conn_supply.specs.Replies.{going_on};
ghost use Rattle.std.specs.Vec.Iter.{into_iter_items, into_iter_len};

use crate::reply::Reply;
use crate::supply::{BindRefusal, HoldingPlace, NoMemory, Supply};
use conn_rules::{
    EntryAnswer, answer_to_entry, suback, subscribe_refusal, unsuback, unsubscribe_refusal,
};
use mqtt_packet::{
    NonEmpty, PacketIdentifier, ReasonCode, Subscribe, Subscription, SubscriptionIdentifier, Text,
    Unsubscribe,
};
use mqtt_topic::Share;
use session_desk::{Membership, Place};
use std::alloc::Global;
use std::vec::IntoIter;
use users::ClientRights;

/// Answers a SUBSCRIBE of a client with these rights, whose session has this membership, which comes back as it is from then on. Where an entry is granted, the session's
/// Subscription Identifier is that of the SUBSCRIBE from then on, or none where it has none (section 3.8.2.1.2).
///
/// # Errors
///
/// Lack of memory; some of the entries may have been answered, and the Subscription Identifier is as it was.
pub fn subscribe<P: HoldingPlace, S: Supply<P>>(
    supply: &mut S,
    alloc: Global,
    rights: &ClientRights,
    membership: Membership<P>,
    subscription: &mut Option<SubscriptionIdentifier>,
    subscribe: Subscribe,
) -> (Membership<P>, Result<Reply, NoMemory>)
    ensures answered { MatchResult result.1
        (λ reply. Subscribes S.call P.slot_of rights.now supply.old membership subscription.old subscribe reply result.0 subscription.new supply.new)
        (λ _. AnswersSome S.call P.slot_of rights.now supply.old membership subscribe.subscriptions result.0 supply.new × (subscription.new ≡ subscription.old)) }
    ensures out { StayOut P.has_out membership result.0 }
    ensures visiting { S.visiting supply.new ≡ S.visiting supply.old }
{
    if let Some(code) = subscribe_refusal(&subscribe) {
        return (membership, Ok(Reply::closing_with(alloc, code)));
    }
    let Subscribe {
        packet_identifier,
        properties,
        subscriptions,
    } = subscribe;
    let asked = properties.subscription_identifier;
    let entries = subscriptions.into_vec();
    let Ok(mut codes) = Vec::with_capacity(alloc, entries.len()) else {
        return (membership, Err(NoMemory));
    };
    match answer_entries(supply, rights, membership, entries.into_iter(), &mut codes) {
        (membership, Ok(())) => {
            let reply = granted(subscription, asked, packet_identifier, codes);
            (membership, Ok(reply))
        }
        (membership, Err(NoMemory)) => (membership, Err(NoMemory)),
    }
}

/// Whether one of these codes grants a subscription.
fn has_granted(codes: &[ReasonCode]) -> bool
    ensures { result ≡ list_any (λ code. code == 1) codes.now }
{
    codes.iter().any(|code| *code == ReasonCode::GRANTED_QOS_1)
}

/// The SUBACK with these codes. Where one of them grants a subscription, the session has the Subscription Identifier that was asked for.
fn granted(
    subscription: &mut Option<SubscriptionIdentifier>,
    asked: Option<SubscriptionIdentifier>,
    identifier: PacketIdentifier,
    codes: Vec<ReasonCode>,
) -> Reply
    requires { 0 < length codes.items }
    ensures reply { result ≡ going_on (Some (suback identifier codes.items)) }
    ensures subscription { subscription.new ≡ subscription_after codes.items asked subscription.old }
{
    if has_granted(&codes) {
        *subscription = asked;
    }
    match NonEmpty::from_vec(codes) {
        Some(codes) => Reply::going_on(Some(suback(identifier, codes))),
        None => unreachable!(),
    }
}

/// Answers the entries of a SUBSCRIBE, in their order, each by a code.
fn answer_entries<P: HoldingPlace, S: Supply<P>>(
    supply: &mut S,
    rights: &ClientRights,
    membership: Membership<P>,
    mut entries: IntoIter<Subscription>,
    codes: &mut Vec<ReasonCode>,
) -> (Membership<P>, Result<(), NoMemory>)
    requires room { vec_len codes.old + into_iter_len entries ≤ vec_capacity codes.old }
    requires counted { length (into_iter_items entries) ≡ into_iter_len entries }
    ensures answered { MatchResult result.1
        (λ _. (rest : List ℕ) × AnswersEntries S.call P.slot_of rights.now supply.old membership (into_iter_items entries) rest result.0 supply.new
        × (codes.new.items ≡ codes.old.items ++ rest) × (length rest ≡ into_iter_len entries))
        (λ _. AnswersFirst S.call P.slot_of rights.now supply.old membership (into_iter_items entries) result.0 supply.new) }
    ensures out { StayOut P.has_out membership result.0 }
    ensures visiting { S.visiting supply.new ≡ S.visiting supply.old }
{
    let Some(entry) = entries.next() else {
        return (membership, Ok(()));
    };
    match answer_entry(supply, rights, membership, answer_to_entry(entry)) {
        (membership, Ok(code)) => {
            codes.push_reserved(code);
            answer_entries(supply, rights, membership, entries, codes)
        }
        (membership, Err(NoMemory)) => (membership, Err(NoMemory)),
    }
}

/// Answers an entry that is to be answered so by a code.
fn answer_entry<P: HoldingPlace, S: Supply<P>>(
    supply: &mut S,
    rights: &ClientRights,
    membership: Membership<P>,
    answer: EntryAnswer,
) -> (Membership<P>, Result<ReasonCode, NoMemory>)
    ensures answered { MatchResult result.1
        (λ code. AnswersEntry S.call P.slot_of rights.now supply.old membership answer code result.0 supply.new)
        (λ _. LacksMemory S.call P.slot_of rights.now supply.old membership answer result.0 supply.new) }
    ensures out { StayOut P.has_out membership result.0 }
    ensures visiting { S.visiting supply.new ≡ S.visiting supply.old }
{
    match answer {
        EntryAnswer::Refuse(code) => (membership, Ok(code)),
        EntryAnswer::Join(share) => join_if_allowed(supply, rights, membership, share),
    }
}

/// Joins a share where the client may work for it.
fn join_if_allowed<P: HoldingPlace, S: Supply<P>>(
    supply: &mut S,
    rights: &ClientRights,
    membership: Membership<P>,
    share: Share,
) -> (Membership<P>, Result<ReasonCode, NoMemory>)
    ensures answered { MatchResult result.1
        (λ code. JoinsIf S.call P.slot_of (may_work rights.now share.text) supply.old membership share code result.0 supply.new)
        (λ _. (may_work rights.now share.text ≡ true) × IsUnbound S.call P.slot_of supply.old membership share result.0 supply.new) }
    ensures out { StayOut P.has_out membership result.0 }
    ensures visiting { S.visiting supply.new ≡ S.visiting supply.old }
{
    if rights.may_work(&share) {
        join(supply, membership, share)
    } else {
        drop(share);
        (membership, Ok(ReasonCode::NOT_AUTHORIZED))
    }
}

/// Joins the group of a share.
fn join<P: HoldingPlace, S: Supply<P>>(
    supply: &mut S,
    membership: Membership<P>,
    share: Share,
) -> (Membership<P>, Result<ReasonCode, NoMemory>)
    ensures joined { MatchResult result.1
        (λ code. Joins S.call P.slot_of supply.old membership share code result.0 supply.new)
        (λ _. IsUnbound S.call P.slot_of supply.old membership share result.0 supply.new) }
    ensures out { StayOut P.has_out membership result.0 }
    ensures visiting { S.visiting supply.new ≡ S.visiting supply.old }
{
    match membership {
        Membership::NotMember => enter(supply, share),
        Membership::Member(place) if is_in(supply, &place, &share) => {
            (Membership::Member(place), Ok(ReasonCode::GRANTED_QOS_1))
        }
        Membership::Leaving(place) if is_in(supply, &place, &share) => {
            (Membership::Member(place), Ok(ReasonCode::GRANTED_QOS_1))
        }
        other => (other, Ok(ReasonCode::QUOTA_EXCEEDED)),
    }
}

/// Whether a place is in the group of a share.
fn is_in<P: HoldingPlace, S: Supply<P>>(supply: &mut S, place: &P, share: &Share) -> bool
    ensures asked { (found : Option ℕ) × S.call supply.old (Find share.now found) supply.new
        × (IsTrue result ↔ (found ≡ Some (P.slot_of place.now))) }
    ensures visiting { S.visiting supply.new ≡ S.visiting supply.old }
{
    supply.find(share) == Some(place.slot())
}

/// Gives a session that is no member a place in the group of a share.
fn enter<P: HoldingPlace, S: Supply<P>>(
    supply: &mut S,
    share: Share,
) -> (Membership<P>, Result<ReasonCode, NoMemory>)
    ensures joined { MatchResult result.1
        (λ code. Joins S.call P.slot_of supply.old NotMember share code result.0 supply.new)
        (λ _. IsUnbound S.call P.slot_of supply.old NotMember share result.0 supply.new) }
    ensures out { StayOut P.has_out NotMember result.0 }
    ensures visiting { S.visiting supply.new ≡ S.visiting supply.old }
{
    match supply.bind(share) {
        Ok(slot) => match supply.lend_place(slot) {
            Some(place) => (Membership::Member(place), Ok(ReasonCode::GRANTED_QOS_1)),
            None => (Membership::NotMember, Ok(ReasonCode::QUOTA_EXCEEDED)),
        },
        Err(BindRefusal::NoSlot) => (Membership::NotMember, Ok(ReasonCode::QUOTA_EXCEEDED)),
        Err(BindRefusal::Memory) => (Membership::NotMember, Err(NoMemory)),
        Err(BindRefusal::NotDeclared) => (Membership::NotMember, Ok(ReasonCode::NOT_AUTHORIZED)),
    }
}

/// Answers an UNSUBSCRIBE of a session with this membership, which comes back as it is from then on.
///
/// # Errors
///
/// Lack of memory; nothing was asked.
pub fn unsubscribe<P: HoldingPlace, S: Supply<P>>(
    supply: &mut S,
    alloc: Global,
    membership: Membership<P>,
    unsubscribe: Unsubscribe,
) -> (Membership<P>, Result<Reply, NoMemory>)
    ensures answered { MatchResult result.1
        (λ reply. Unsubscribes S.call P.slot_of supply.old membership unsubscribe reply result.0 supply.new)
        (λ _. (result.0 ≡ membership) × (supply.new ≡ supply.old)) }
    ensures out { StayOut P.has_out membership result.0 }
    ensures visiting { S.visiting supply.new ≡ S.visiting supply.old }
{
    if let Some(code) = unsubscribe_refusal(&unsubscribe) {
        return (membership, Ok(Reply::closing_with(alloc, code)));
    }
    let identifier = unsubscribe.packet_identifier;
    let filters = unsubscribe.filters.into_vec();
    let Ok(mut codes) = Vec::with_capacity(alloc, filters.len()) else {
        return (membership, Err(NoMemory));
    };
    let membership = leave_each(supply, membership, filters.into_iter(), &mut codes);
    (membership, Ok(left(identifier, codes)))
}

/// The UNSUBACK with these codes.
fn left(identifier: PacketIdentifier, codes: Vec<ReasonCode>) -> Reply
    requires { 0 < length codes.items }
    ensures { result ≡ going_on (Some (unsuback identifier codes.items)) }
{
    match NonEmpty::from_vec(codes) {
        Some(codes) => Reply::going_on(Some(unsuback(identifier, codes))),
        None => unreachable!(),
    }
}

/// Answers the filters of an UNSUBSCRIBE, in their order, each by a code.
fn leave_each<P: HoldingPlace, S: Supply<P>>(
    supply: &mut S,
    membership: Membership<P>,
    mut filters: IntoIter<Text>,
    codes: &mut Vec<ReasonCode>,
) -> Membership<P>
    requires { vec_len codes.old + into_iter_len filters ≤ vec_capacity codes.old }
    ensures left { (rest : List ℕ) × LeavesByAll S.call P.slot_of supply.old membership (into_iter_items filters) rest result supply.new
        × (codes.new.items ≡ codes.old.items ++ rest) × (length rest ≡ into_iter_len filters) }
    ensures out { StayOut P.has_out membership result }
    ensures visiting { S.visiting supply.new ≡ S.visiting supply.old }
{
    let Some(filter) = filters.next() else {
        return membership;
    };
    let (membership, code) = leave(supply, membership, filter);
    codes.push_reserved(code);
    leave_each(supply, membership, filters, codes)
}

/// Answers a filter of an UNSUBSCRIBE by a code.
fn leave<P: HoldingPlace, S: Supply<P>>(
    supply: &mut S,
    membership: Membership<P>,
    filter: Text,
) -> (Membership<P>, ReasonCode)
    ensures left { LeavesBy S.call P.slot_of supply.old membership (share_of filter) result.1 result.0 supply.new }
    ensures out { StayOut P.has_out membership result.0 }
    ensures visiting { S.visiting supply.new ≡ S.visiting supply.old }
{
    let Ok(share) = Share::parse(filter) else {
        return (membership, ReasonCode::NO_SUBSCRIPTION_EXISTED);
    };
    match membership {
        Membership::Member(place) if is_in(supply, &place, &share) => {
            (Membership::Leaving(place), ReasonCode::SUCCESS)
        }
        other => (other, ReasonCode::NO_SUBSCRIPTION_EXISTED),
    }
}
