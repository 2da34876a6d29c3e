//! What becomes of a PUBLISH, as far as it asks no group (sections 3.3 and 3.4).
ghost use Rattle.std.specs.Prelude.{◌≡◌, is_some};
ghost use Rattle.std.specs.List.{list_any};
ghost use Rattle.mqtt_topic.specs.Levels.{is_wildcard};
ghost use Rattle.conn_rules.specs.Publishing.{closing_code, publish_answer, identified_answer, puback_code};

use mqtt_packet::{Delivery, PacketIdentifier, Publish, ReasonCode};

/// What becomes of a PUBLISH before any group is asked.
#[derive(Clone, Copy, Debug, PartialEq, Eq)]
pub enum PublishAnswer {
    /// The connection is closed with a DISCONNECT of this Reason Code.
    Close(ReasonCode),
    /// It is offered to the groups that it matches, and the PUBACK goes under this identifier.
    Offer(PacketIdentifier),
}

/// What becomes of a PUBLISH: QoS 2 is not supported (section 3.2.2.3.4), and QoS 0 is not served (profile).
pub fn answer_to_publish(publish: &Publish) -> PublishAnswer
    ensures { result ≡ publish_answer publish.now }
{
    match publish.delivery {
        Delivery::AtLeastOnce(identifier) => answer_under(identifier, publish),
        Delivery::AtMostOnce => PublishAnswer::Close(ReasonCode::IMPLEMENTATION_SPECIFIC_ERROR),
        Delivery::ExactlyOnce(_) => PublishAnswer::Close(ReasonCode::QOS_NOT_SUPPORTED),
    }
}

/// What becomes of a PUBLISH of QoS 1 under that identifier.
fn answer_under(identifier: PacketIdentifier, publish: &Publish) -> PublishAnswer
    ensures { result ≡ identified_answer (closing_code publish.now) identifier }
{
    match closing_code(publish) {
        Some(code) => PublishAnswer::Close(code),
        None => PublishAnswer::Offer(identifier),
    }
}

/// The Reason Code with which a PUBLISH of QoS 1 closes the connection; `None` where it does not.
pub fn closing_code(publish: &Publish) -> Option<ReasonCode>
    ensures { result ≡ closing_code publish.now }
{
    if publish.retain {
        return Some(ReasonCode::RETAIN_NOT_SUPPORTED);
    }
    if has_topic_alias(publish) {
        return Some(ReasonCode::TOPIC_ALIAS_INVALID);
    }
    let topic = publish.topic.as_bytes();
    if topic.is_empty() {
        return Some(ReasonCode::PROTOCOL_ERROR);
    }
    if has_wildcard(topic) {
        return Some(ReasonCode::MALFORMED_PACKET);
    }
    None
}

/// Whether it has a Topic Alias (section 3.3.2.3.4).
fn has_topic_alias(publish: &Publish) -> bool
    ensures { result ≡ is_some publish.now.properties.topic_alias }
{
    match publish.properties.get() {
        Some(properties) => properties.topic_alias.is_some(),
        None => false,
    }
}

/// Whether a wildcard stands in the text (section 4.7.1).
fn has_wildcard(text: &[u8]) -> bool
    ensures { result ≡ list_any is_wildcard text.now }
{
    text.iter().any(|byte| matches!(byte, b'#' | b'+'))
}

/// The Reason Code of the PUBACK of a message that so many groups matched, of which so many took it (section 3.4.2.1).
pub fn puback_code(matched: usize, taken: usize) -> ReasonCode
    ensures { result ≡ puback_code matched taken }
{
    if matched == 0 {
        ReasonCode::NO_MATCHING_SUBSCRIBERS
    } else if taken < matched {
        ReasonCode::QUOTA_EXCEEDED
    } else {
        ReasonCode::SUCCESS
    }
}
