//! The answer to a PUBLISH (section 3.3).
ghost use Rattle.std.specs.Prelude.{◌≡◌, ◌≤◌, ◌+◌, Ok, Err, [], length, All, IfOk, OnOk, OnErr, vec_len, true};
ghost use Rattle.mqtt_topic.specs.Names.{name_of};
ghost use Rattle.users.specs.Rights.{may_publish};
ghost use Rattle.conn_rules.specs.Publishing.{message_of, publish_answer};
ghost use Rattle.conn_rules.specs.declared.publishing.PublishAnswer.TheVariants as answers;
ghost use Rattle.conn_supply.specs.declared.supply.OfferRefusal.TheVariants as refusals;
ghost use Rattle.conn_supply.specs.SupplyCalls.SupplyCall.{Match, Offer};
ghost use Rattle.conn_supply.specs.Publishing.{Took, Offers, OffersFirst, OffersIf, OffersSome, IsCutShort, IsOffered, FailsToPublish, Publishes};

use crate::reply::Reply;
use crate::supply::{HoldingPlace, NoMemory, OfferRefusal, Supply};
use conn_rules::{PublishAnswer, answer_to_publish, message_of, puback_code};
use group_jobs::{Message, SharedMessage};
use mqtt_packet::{PacketIdentifier, Publish, ReasonCode, Text};
use mqtt_topic::{SlotIter, Slots, TopicName};
use std::alloc::Global;
use users::ClientRights;

/// Answers a PUBLISH of this connection that came at this moment, in milliseconds: it is offered to each group that matches, where its client may publish to its
/// topic. A visit of the supply is going on.
///
/// # Errors
///
/// Lack of memory: of the groups that match, the message was offered to none, or to each up to one that had no memory for it.
pub fn publish<P: HoldingPlace, S: Supply<P>>(
    supply: &mut S,
    alloc: Global,
    connection: u16,
    rights: &ClientRights,
    now: u64,
    publish: Publish,
) -> Result<Reply, NoMemory>
    requires visiting { S.visiting supply.old ≡ true }
    ensures replied { IfOk result (λ reply. Publishes S.call rights.now supply.old connection now publish reply supply.new) }
    ensures cut_short { OnErr result (FailsToPublish S.call rights.now supply.old connection now publish supply.new) }
    ensures visiting { S.visiting supply.new ≡ S.visiting supply.old }
{
    match answer_to_publish(&publish) {
        PublishAnswer::Close(code) => {
            drop(publish);
            Ok(Reply::closing_with(alloc, code))
        }
        PublishAnswer::Offer(identifier) => {
            offer_if_allowed(supply, alloc, connection, rights, now, identifier, publish)
        }
    }
}

/// Offers the message of a PUBLISH where the client may publish to its topic, and answers by a PUBACK.
#[tactic(auto, using(crate::proofs::Topics::offered_is_named))]
fn offer_if_allowed<P: HoldingPlace, S: Supply<P>>(
    supply: &mut S,
    alloc: Global,
    connection: u16,
    rights: &ClientRights,
    now: u64,
    identifier: PacketIdentifier,
    mut publish: Publish,
) -> Result<Reply, NoMemory>
    requires offered { publish_answer publish ≡ answers.Offer identifier }
    requires visiting { S.visiting supply.old ≡ true }
    ensures replied { IfOk result (λ reply. OffersIf S.call (may_publish rights.now publish.topic) supply.old connection now publish identifier reply supply.new) }
    ensures cut_short { OnErr result (FailsToPublish S.call rights.now supply.old connection now publish supply.new) }
    ensures visiting { S.visiting supply.new ≡ S.visiting supply.old }
{
    let topic = TopicName::known(publish.topic);
    let is_allowed = rights.may_publish(&topic);
    publish.topic = topic.into_text();
    if is_allowed {
        offer(supply, alloc, connection, now, identifier, publish)
    } else {
        drop(publish);
        Ok(Reply::acknowledging(alloc, identifier, ReasonCode::NOT_AUTHORIZED))
    }
}

/// Offers the message of a PUBLISH to the groups that match, and answers by a PUBACK.
#[tactic(auto, using(crate::proofs::Topics::offered_is_named, crate::proofs::Offered::offered_has_no_alias))]
fn offer<P: HoldingPlace, S: Supply<P>>(
    supply: &mut S,
    alloc: Global,
    connection: u16,
    now: u64,
    identifier: PacketIdentifier,
    mut publish: Publish,
) -> Result<Reply, NoMemory>
    requires offered { publish_answer publish ≡ answers.Offer identifier }
    requires visiting { S.visiting supply.old ≡ true }
    ensures replied { IfOk result (λ reply. IsOffered S.call supply.old connection now publish identifier reply supply.new) }
    ensures cut_short { OnErr result (IsCutShort S.call supply.old connection now publish supply.new) }
    ensures visiting { S.visiting supply.new ≡ S.visiting supply.old }
{
    let (slots, topic) = matching(supply, publish.topic);
    publish.topic = topic;
    let taken = offer_to_all(supply, alloc, connection, &slots, message_of(now, publish))?;
    let code = puback_code(slots.len(), taken);
    Ok(Reply::acknowledging(alloc, identifier, code))
}

/// The slots of the groups that match a topic, and the topic.
fn matching<P: HoldingPlace, S: Supply<P>>(supply: &mut S, topic: Text) -> (Slots, Text)
    requires { name_of topic ≡ Ok topic }
    ensures asked { S.call supply.old (Match topic result.0) supply.new }
    ensures topic { result.1 ≡ topic }
    ensures visiting { S.visiting supply.new ≡ S.visiting supply.old }
{
    let name = TopicName::known(topic);
    let slots = supply.matching(&name);
    (slots, name.into_text())
}

/// Offers a message to all these groups, and says how many took it. All copies are made before the first is offered.
fn offer_to_all<P: HoldingPlace, S: Supply<P>>(
    supply: &mut S,
    alloc: Global,
    connection: u16,
    slots: &Slots,
    message: Message,
) -> Result<usize, NoMemory>
    requires visiting { S.visiting supply.old ≡ true }
    ensures offered { IfOk result (λ taken. Offers S.call supply.old connection message slots.now taken supply.new) }
    ensures cut_short { OnErr result (OffersSome S.call supply.old connection message slots.now supply.new) }
    ensures visiting { S.visiting supply.new ≡ S.visiting supply.old }
{
    let message = SharedMessage::new(alloc, message)?;
    let copies = copies_of(alloc, &message, slots.len().saturating_sub(1))?;
    offer_each(supply, connection, slots.iter(), message, copies)
}

/// So many copies of a message, which share its bytes.
fn copies_of(
    alloc: Global,
    message: &SharedMessage,
    count: usize,
) -> Result<Vec<SharedMessage>, NoMemory>
    ensures count { IfOk result (λ copies. vec_len copies ≡ count) }
    ensures alike { IfOk result (λ copies. All (λ copy. copy ≡ message.now) copies.items) }
{
    let mut copies = Vec::with_capacity(alloc, count)?;
    match copy_into(message, count, &mut copies) {
        Ok(()) => Ok(copies),
        Err(NoMemory) => {
            drop(copies);
            Err(NoMemory)
        }
    }
}

/// Puts so many copies of a message into an empty list.
fn copy_into(
    message: &SharedMessage,
    count: usize,
    copies: &mut Vec<SharedMessage>,
) -> Result<(), NoMemory>
    requires items { copies.old.items ≡ [] }
    requires none { vec_len copies.old ≡ 0 }
    ensures count { OnOk result (vec_len copies.new ≡ count) }
    ensures alike { OnOk result (All (λ copy. copy ≡ message.now) copies.new.items) }
{
    for _ in 0..count {
        copies.push(message.share()?)?;
    }
    Ok(())
}

/// Offers a message to these groups, in their order: a copy to each but the last.
#[tactic(auto, using(crate::proofs::Copies::alike_popped))]
fn offer_each<P: HoldingPlace, S: Supply<P>>(
    supply: &mut S,
    connection: u16,
    mut slots: SlotIter,
    message: SharedMessage,
    mut copies: Vec<SharedMessage>,
) -> Result<usize, NoMemory>
    requires enough { length slots ≤ vec_len copies + 1 }
    requires alike { All (λ copy. copy ≡ message) copies.items }
    requires visiting { S.visiting supply.old ≡ true }
    ensures offered { IfOk result (λ taken. Offers S.call supply.old connection message slots taken supply.new) }
    ensures cut_short { OnErr result (OffersFirst S.call supply.old connection message slots supply.new) }
    ensures few { IfOk result (λ taken. taken ≤ length slots) }
    ensures visiting { S.visiting supply.new ≡ S.visiting supply.old }
{
    let Some(slot) = slots.next() else {
        return Ok(0);
    };
    match copies.pop() {
        None => offer_one(supply, connection, slot, message),
        Some(copy) => {
            let first = offer_one(supply, connection, slot, copy)?;
            match offer_each(supply, connection, slots, message, copies) {
                Ok(rest) => Ok(first + rest),
                Err(NoMemory) => Err(NoMemory),
            }
        }
    }
}

/// Offers a message to one group, and says whether that took it: 1 or 0.
fn offer_one<P: HoldingPlace, S: Supply<P>>(
    supply: &mut S,
    connection: u16,
    slot: u8,
    message: SharedMessage,
) -> Result<usize, NoMemory>
    requires visiting { S.visiting supply.old ≡ true }
    ensures offered { (answer : _) × S.call supply.old (Offer slot connection message answer) supply.new
        × IfOk result (λ taken. Took answer taken × (taken ≤ 1)) }
    ensures refused { OnErr result (S.call supply.old (Offer slot connection message (Err refusals.Memory)) supply.new) }
    ensures visiting { S.visiting supply.new ≡ S.visiting supply.old }
{
    match supply.offer(slot, connection, message) {
        Ok(_) => Ok(1),
        Err(OfferRefusal::Memory) => Err(NoMemory),
        Err(OfferRefusal::Shut | OfferRefusal::LifeSpent | OfferRefusal::Full) => Ok(0),
    }
}
