//! The properties of a PUBLISH that stand apart from it, of which it has most often none.

ghost use Rattle.std.specs.Prelude.{◌≡◌, ◌↔◌, IsTrue, IfOk, MatchOption};
ghost use Rattle.mqtt_packet.specs.RareProperties.{no_properties};
ghost use Rattle.mqtt_packet.specs.contracts.packet_properties.PublishPropertiesPartialEq.TheImpl.Laws.{laws-law};

use crate::packet_properties::PublishProperties;
use crate::shared::Shared;
use std::alloc::{AllocError, Global};
use std::marker::Model;

/// The properties of a PUBLISH (section 3.3.2.3), all but those that are fields of its own. Where it has none they take no memory, and where it has
/// some they stand apart, so that a packet is small on its way, and are shared with the message that is kept of it and with the packets in which that goes out.
/// Contracts see them as [`PublishProperties`].
#[derive(Debug, Drop)]
pub struct RareProperties {
    listed: Option<Shared<PublishProperties>>,
}

impl Model for RareProperties {
    ghost use Rattle.mqtt_packet.specs.declared.packet_properties.PublishProperties.{PublishProperties};
    ghost use Rattle.mqtt_packet.specs.RareProperties.{listed_or_none};

    ghost Value = { PublishProperties };

    ghost view = { λ rare. listed_or_none rare.listed };
}

impl RareProperties {
    /// None of them.
    pub fn none() -> RareProperties
        ensures { result ≡ no_properties }
    {
        RareProperties { listed: None }
    }

    /// These properties. It takes memory only where there is one.
    pub fn new(alloc: Global, properties: PublishProperties) -> Result<RareProperties, AllocError>
        ensures { IfOk result (λ rare. rare ≡ properties) }
    {
        if properties.is_none() {
            drop(properties);
            return Ok(RareProperties::none());
        }
        let listed = Shared::new(alloc, properties)?;
        Ok(RareProperties {
            listed: Some(listed),
        })
    }

    /// The properties; `None` only where there is none.
    pub fn get(&self) -> Option<&PublishProperties>
        ensures { MatchOption result (self.now ≡ no_properties) (λ properties. properties.now ≡ self.now) }
    {
        match &self.listed {
            Some(properties) => Some(properties),
            None => None,
        }
    }

    /// The same properties, for one owner more. It takes no memory: an `Err` says that they have as many owners as can be counted, 2^63.
    pub fn share(&self) -> Result<RareProperties, AllocError>
        ensures { IfOk result (λ shared. shared ≡ self.now) }
    {
        match &self.listed {
            Some(properties) => Ok(RareProperties {
                listed: Some(properties.share()?),
            }),
            None => Ok(RareProperties::none()),
        }
    }
}

impl PartialEq for RareProperties {
    ghost eq = { ⟦<PublishProperties as PartialEq>⟧.eq };

    ghost laws = { laws-law };

    fn eq(&self, other: &RareProperties) -> bool {
        match (self.get(), other.get()) {
            (Some(one), Some(other)) => one == other,
            (Some(one), None) => one.is_none(),
            (None, Some(other)) => other.is_none(),
            (None, None) => true,
        }
    }
}
