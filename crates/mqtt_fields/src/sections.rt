//! Readers of a section of properties, from the front of what is left of a body (section 2.2.2).

ghost use Rattle.std.specs.Prelude.{◌≡◌, ◌<◌, List, ℕ, length, OnOk};
ghost use Rattle.mqtt_fields.specs.Faults.{Gives, GivesField};
ghost use Rattle.mqtt_fields.specs.Properties.{nothing, is_forbidden};
ghost use Rattle.mqtt_fields.specs.Sections.{value_at, property_at, gathered_at, properties_at};

use crate::fault::{Fault, StreamFault};
use crate::fields::{
    read_binary, read_byte, read_flag, read_maximum_packet_size, read_pair, read_receive_maximum,
    read_subscription_identifier, read_text, read_u16, read_u32, read_variable,
};
use crate::properties::Properties;
use crate::property::{Property, PropertyName, Section, name_of};
use bytes::Bytes;
use std::alloc::Global;

/// Takes a section of properties: their length, and they themselves. Refuses with 101 where it runs over the end or has a
/// property that the section does not have, with 102 where one comes twice or has a value that is not allowed, and with 104
/// where memory is refused.
#[tactic(auto, unfolding(crate::specs::Sections::properties_at))]
pub fn read_properties(
    alloc: Global,
    section: Section,
    body: &mut Bytes,
) -> Result<Properties, Fault>
    ensures { GivesField result body.new (properties_at section body.old) }
{
    let size = read_variable(body)? as usize;
    if body.len() < size {
        return Err(Fault::Stream(StreamFault::Malformed));
    }
    let list = body.split_to(size)?;
    gather(alloc, section, list)
}

/// Reads properties up to the end of the bytes.
fn gather(alloc: Global, section: Section, list: Bytes) -> Result<Properties, Fault>
    ensures { Gives (λ all. all) result (gathered_at section nothing (length list) list) }
{
    let mut properties = Properties::nothing(alloc);
    match gather_into(section, &mut properties, list) {
        Ok(()) => Ok(properties),
        Err(fault) => {
            drop(properties);
            Err(fault)
        }
    }
}

/// Gathers properties up to the end of the bytes, after those that are there.
fn gather_into(section: Section, properties: &mut Properties, mut list: Bytes) -> Result<(), Fault>
    ensures { Gives (λ _. properties.new) result (gathered_at section properties.old (length list) list) }
{
    while !list.is_empty() {
        let property = read_property(section, properties, &mut list)?;
        properties.add(property)?;
    }
    Ok(())
}

/// Takes one property, after those that are there.
#[tactic(auto, unfolding(crate::specs::Sections::property_at))]
fn read_property(section: Section, so_far: &Properties, list: &mut Bytes) -> Result<Property, Fault>
    ensures field { GivesField result list.new (property_at section so_far.now list.old) }
    ensures shorter { OnOk result (length list.new < length list.old) }
{
    let identifier = read_byte(list)?;
    let Some(name) = name_of(section, identifier) else {
        return Err(Fault::Stream(StreamFault::Malformed));
    };
    if is_forbidden(section, name) || so_far.has(name) {
        return Err(Fault::Stream(StreamFault::Protocol));
    }
    read_value(name, list)
}

/// Whether the section may not have a property of that name, though its packet has one when a broker sends it.
fn is_forbidden(section: Section, name: PropertyName) -> bool
    ensures { result ≡ is_forbidden section name }
{
    matches!(
        (section, name),
        (Section::Publish, PropertyName::SubscriptionIdentifier)
    )
}

/// Takes the value of a property of that name.
#[tactic(auto, unfolding(crate::specs::Sections::value_at))]
fn read_value(name: PropertyName, list: &mut Bytes) -> Result<Property, Fault>
    ensures field { GivesField result list.new (value_at name list.old) }
{
    match name {
        PropertyName::PayloadFormatIndicator => {
            Ok(Property::PayloadFormatIndicator(read_byte(list)?))
        }
        PropertyName::MessageExpiryInterval => Ok(Property::MessageExpiryInterval(read_u32(list)?)),
        PropertyName::ContentType => read_text(list).map(Property::ContentType),
        PropertyName::ResponseTopic => read_text(list).map(Property::ResponseTopic),
        PropertyName::CorrelationData => read_binary(list).map(Property::CorrelationData),
        PropertyName::SubscriptionIdentifier => Ok(Property::SubscriptionIdentifier(
            read_subscription_identifier(list)?,
        )),
        PropertyName::SessionExpiryInterval => Ok(Property::SessionExpiryInterval(read_u32(list)?)),
        PropertyName::AuthenticationMethod => {
            read_text(list).map(Property::AuthenticationMethod)
        }
        PropertyName::AuthenticationData => read_binary(list).map(Property::AuthenticationData),
        PropertyName::RequestProblemInformation => {
            Ok(Property::RequestProblemInformation(read_flag(list)?))
        }
        PropertyName::RequestResponseInformation => {
            Ok(Property::RequestResponseInformation(read_flag(list)?))
        }
        PropertyName::ReasonString => read_text(list).map(Property::ReasonString),
        PropertyName::ReceiveMaximum => Ok(Property::ReceiveMaximum(read_receive_maximum(list)?)),
        PropertyName::TopicAliasMaximum => Ok(Property::TopicAliasMaximum(read_u16(list)?)),
        PropertyName::TopicAlias => Ok(Property::TopicAlias(read_u16(list)?)),
        PropertyName::UserProperty => read_pair(list).map(Property::UserProperty),
        PropertyName::MaximumPacketSize => {
            Ok(Property::MaximumPacketSize(read_maximum_packet_size(list)?))
        }
    }
}
