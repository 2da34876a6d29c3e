//! A law of the definitions, over all properties: the contract of a function that does nothing.

ghost use Rattle.mqtt_packet.specs.declared.packet.Publish.{Publish};
ghost use Rattle.mqtt_packet.specs.declared.packet_properties.ConnectProperties.{ConnectProperties};
ghost use Rattle.mqtt_packet.specs.declared.packet_properties.PubackProperties.{PubackProperties};
ghost use Rattle.mqtt_packet.specs.declared.packet_properties.SubscribeProperties.{SubscribeProperties};
ghost use Rattle.mqtt_packet.specs.declared.packet_properties.UnsubscribeProperties.{UnsubscribeProperties};
ghost use Rattle.mqtt_packet.specs.declared.packet_properties.DisconnectProperties.{DisconnectProperties};
ghost use Rattle.mqtt_fields.specs.Orders.{AreRising};
ghost use Rattle.mqtt_fields.specs.PropertyLists.{connect_list, publish_list, puback_list, subscribe_list, unsubscribe_list, disconnect_list};

/// Of each packet that a client may send, and of a PUBLISH that a server sends, what is written of its properties is properties in rising order of their identifiers.
pub fn written_properties_rise()
    ensures connect { (properties : ConnectProperties) → AreRising (connect_list properties) }
    ensures publish { (publish : Publish) → AreRising (publish_list publish) }
    ensures puback { (properties : PubackProperties) → AreRising (puback_list properties) }
    ensures subscribe { (properties : SubscribeProperties) → AreRising (subscribe_list properties) }
    ensures unsubscribe { (properties : UnsubscribeProperties) → AreRising (unsubscribe_list properties) }
    ensures disconnect { (properties : DisconnectProperties) → AreRising (disconnect_list properties) }
{}
