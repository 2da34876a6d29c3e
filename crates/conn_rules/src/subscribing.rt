//! What becomes of a SUBSCRIBE and of an UNSUBSCRIBE, as far as they ask no session and no group (sections 3.8 to 3.11).
ghost use Rattle.std.specs.Prelude.{◌≡◌, nat_eq, codes};
ghost use Rattle.std.specs.List.{list_any, starts_with};
ghost use Rattle.mqtt_topic.specs.Names.{share_of};
ghost use Rattle.conn_rules.specs.Subscribing.{subscribe_refusal, unsubscribe_refusal, is_local_share, entry_answer, share_answer, refused_code};

use mqtt_packet::{QoS, ReasonCode, Subscribe, Subscription, Text, Unsubscribe};
use mqtt_topic::{Filter, RefusedText, Share, TopicError};

/// How many entries a SUBSCRIBE or an UNSUBSCRIBE has at most.
const MOST_ENTRIES: usize = 32;

/// How the text of a share begins (section 4.8.2).
const SHARE: &[u8] = b"$share/";

/// What becomes of an entry of a SUBSCRIBE before any session or group is asked.
#[derive(Debug, Drop)]
pub enum EntryAnswer {
    /// The entry is refused by this Reason Code.
    Refuse(ReasonCode),
    /// It asks to join the group of this share.
    Join(Share),
}

/// The Reason Code with which a SUBSCRIBE closes the connection: 83 where it has more than 32 entries (profile), 82 where
/// one asks a shared subscription for No Local (section 3.8.3.1). `None` where it does not.
pub fn subscribe_refusal(subscribe: &Subscribe) -> Option<ReasonCode>
    ensures { result ≡ subscribe_refusal subscribe.now }
{
    let entries = subscribe.subscriptions.as_slice();
    if entries.len() > MOST_ENTRIES {
        return Some(ReasonCode::IMPLEMENTATION_SPECIFIC_ERROR);
    }
    if asks_no_local(entries) {
        return Some(ReasonCode::PROTOCOL_ERROR);
    }
    None
}

/// Whether one of the entries asks a shared subscription for No Local.
fn asks_no_local(entries: &[Subscription]) -> bool
    ensures { result ≡ list_any is_local_share entries.now }
{
    entries.iter().any(|entry| entry.options.no_local && entry.filter.as_bytes().starts_with(SHARE))
}

/// The Reason Code with which an UNSUBSCRIBE closes the connection: 83 where it has more than 32 entries (profile). `None`
/// where it does not.
pub fn unsubscribe_refusal(unsubscribe: &Unsubscribe) -> Option<ReasonCode>
    ensures { result ≡ unsubscribe_refusal unsubscribe.now }
{
    if unsubscribe.filters.as_slice().len() > MOST_ENTRIES {
        Some(ReasonCode::IMPLEMENTATION_SPECIFIC_ERROR)
    } else {
        None
    }
}

/// What becomes of an entry of a SUBSCRIBE.
pub fn answer_to_entry(entry: Subscription) -> EntryAnswer
    ensures { result ≡ entry_answer entry }
{
    let Subscription { filter, options } = entry;
    let is_served = !matches!(options.maximum_qos, QoS::AtMostOnce);
    share_answer(is_served, filter)
}

/// What becomes of an entry with that text, where it is served at all.
fn share_answer(is_served: bool, filter: Text) -> EntryAnswer
    ensures { result ≡ share_answer is_served (share_of filter) filter }
{
    match Share::parse(filter) {
        Ok(share) if is_served => EntryAnswer::Join(share),
        Ok(_) => EntryAnswer::Refuse(ReasonCode::IMPLEMENTATION_SPECIFIC_ERROR),
        Err(refused) => EntryAnswer::Refuse(refused_code(refused)),
    }
}

/// The Reason Code of a text that is no share: 83 where it is a filter, and else 8F (profile).
fn refused_code(refused: RefusedText) -> ReasonCode
    ensures { result ≡ refused_code refused.error refused.text }
{
    match refused.error {
        TopicError::NotShared => match Filter::parse(refused.text) {
            Ok(_) => ReasonCode::IMPLEMENTATION_SPECIFIC_ERROR,
            Err(_) => ReasonCode::TOPIC_FILTER_INVALID,
        },
        _ => ReasonCode::TOPIC_FILTER_INVALID,
    }
}
