//! The laws of how long packets are: of single packets, and of every step over every supply.
ghost use Rattle.std.specs.Prelude.{◌≡◌, ◌≢◌, ◌+◌, ◌≤◌, ℕ, Bool, List, length, Option, Some, None};
ghost use Rattle.std.specs.List.{AllByRecursion};
ghost use Rattle.mqtt_packet.specs.declared.packet.ConnectRefusal.{ConnectRefusal};
ghost use Rattle.mqtt_packet.specs.declared.packet.Delivery.TheVariants.{AtMostOnce};
ghost use Rattle.mqtt_packet.specs.declared.packet.Packet.{Packet};
ghost use Rattle.mqtt_packet.specs.declared.packet.Packet.TheVariants as packets;
ghost use Rattle.mqtt_packet.specs.declared.packet.Publish.{Publish};
ghost use Rattle.mqtt_packet.specs.Texts.{IsText};
ghost use Rattle.mqtt_wire.specs.Spelling.{Spells};
ghost use Rattle.mqtt_wire.specs.Writing.{written, written_size, remaining_length};
ghost use Rattle.session_desk.specs.Names.{assigned_name};
ghost use Rattle.conn_rules.specs.declared.terms.Overrides.{Overrides};
ghost use Rattle.conn_rules.specs.Packets.{accepting, refusing, job, puback, suback, unsuback, disconnect};
ghost use Rattle.conn_rules.specs.Publishing.{message_of};
ghost use Rattle.conn_rules.specs.Subscribing.{most_entries};
ghost use Rattle.conn_supply.specs.declared.reply.Then.{Then};
ghost use Rattle.conn_engine.specs.declared.input.Input.{Input};
ghost use Rattle.conn_engine.specs.declared.phase.ConnPhase.{ConnPhase};
ghost use Rattle.conn_engine.specs.Step.{Steps};
ghost use Rattle.conn_laws.specs.PacketSizes.{maximum_named, HasMaximum, Takes, HoldsWhatFits, TakesUnlessAssigns, AreNewEmpty, AreNamesAssigned};
ghost use Rattle.conn_laws.specs.Sizes.{IsSmall, IsShort, IsLight, IsAnswerUnlessHandedOn, IsShortUnlessHandedOn, most_publish_bytes};

use conn_supply::{HoldingPlace, Supply};

/// **A message is handed on in no more bytes than it came in, and those of a Subscription Identifier** (section 3.3): a PUBLISH that was read
/// has at most 65,536 bytes in all, and what goes on of it is its topic, its payload, and those of its properties that go with a message
/// (3.3.2.3). Where it came with a Packet Identifier, the PUBLISH that hands it on without a Subscription Identifier is no longer than the one
/// that brought it (`no_longer`), and with one it has at most 65,542 bytes (`taken`); and in any case it is short (`light`).
pub fn forwarded_law()
    ensures no_longer { (publish : Publish) (bytes : List ℕ) (came now : ℕ) (dup : Bool) (identifier : ℕ) →
        Spells (packets.Publish publish) bytes → publish.delivery ≢ AtMostOnce →
        length (written (job now dup (message_of came publish) None identifier)) ≤ length bytes }
    ensures taken { (publish : Publish) (bytes : List ℕ) (came now : ℕ) (dup : Bool) (subscription : Option ℕ) (identifier : ℕ) →
        Spells (packets.Publish publish) bytes → publish.delivery ≢ AtMostOnce →
        length (written (job now dup (message_of came publish) subscription identifier)) ≤ most_publish_bytes }
    ensures light { (publish : Publish) (bytes : List ℕ) (came : ℕ) →
        Spells (packets.Publish publish) bytes → IsLight (message_of came publish) }
{}

/// **How long the other packets are** that the broker sends: a CONNACK (section 3.2) that accepts, with no identifier, with one that the
/// desk assigns, and with any text, whatever of it is not as the client asked; one that refuses, which a client takes that takes any CONNACK; a PUBACK (3.4); a SUBACK (3.9) and an
/// UNSUBACK (3.11) of as many codes as a packet may have entries; a DISCONNECT (3.14); and a PINGRESP (3.13).
pub fn replies_law()
    ensures accepted { (present : Bool) (overrides : Overrides) → IsSmall (accepting present None overrides) }
    ensures assigned { (present : Bool) (number : ℕ) (overrides : Overrides) → IsSmall (accepting present (Some (assigned_name number)) overrides) }
    ensures named { (present : Bool) (name : List ℕ) (overrides : Overrides) → IsText name → IsShort (accepting present (Some name) overrides) }
    ensures refused { (refusal : ConnectRefusal) → length (written (refusing refusal)) ≡ 5 }
    ensures acknowledged { (identifier code : ℕ) → length (written (puback identifier code)) ≤ 5 }
    ensures subscribed { (identifier : ℕ) (codes : List ℕ) → length codes ≤ most_entries →
        length (written (suback identifier codes)) ≡ 5 + length codes }
    ensures unsubscribed { (identifier : ℕ) (codes : List ℕ) → length codes ≤ most_entries →
        length (written (unsuback identifier codes)) ≡ 5 + length codes }
    ensures closed { (code : ℕ) → length (written (disconnect code)) ≤ 3 }
    ensures answered { length (written packets.Pingresp) ≡ 2 }
{}

/// **A short packet is written** (section 2.1.4): its Remaining Length can be said, so that `encode` does not refuse it as too large, and
/// `encoded_size` says how many bytes it has.
pub fn writable_law()
    ensures said { (packet : Packet) → IsShort packet → remaining_length packet ≤ 268435455 }
    ensures size { (packet : Packet) → IsShort packet → written_size packet ≡ length (written packet) }
{}

/// **What a step sends is short**: each of its packets is, unless it is a PUBLISH that hands a message on, and that is as long as its
/// message makes it (`short`). Of the others each has at most 64 bytes, which every client takes that is not refused (section 3.1.2.11.4),
/// unless it is a CONNACK that assigns an identifier (`small`).
pub fn short_replies_law<P: HoldingPlace, S: Supply<P>>()
    ensures short { (number now : ℕ) (phase phase' : ConnPhase P) (input : Input) (packets : List Packet) (next : Then) (old new : S) →
        Steps S.call P.slot_of old number phase now input packets next phase' new →
        AllByRecursion IsShortUnlessHandedOn packets }
    ensures small { (number now : ℕ) (phase phase' : ConnPhase P) (input : Input) (packets : List Packet) (next : Then) (old new : S) →
        Steps S.call P.slot_of old number phase now input packets next phase' new →
        AllByRecursion IsAnswerUnlessHandedOn packets }
{}

/// **No packet is longer than its client takes** (section 3.1.2.11.4): where a connection holds what fits, its client takes each packet of a step, by
/// the Maximum Packet Size that it has named in the CONNECT that comes or came (`fits`); and after the step the connection holds what fits (`kept`), as
/// one does that is opened. So it is with each message, sent for the first time or again, and with each reply.
///
/// - It holds over every supply whose new sessions hold nothing. What a resumed session holds is looked at before its client is accepted.
/// - One packet may be longer: a CONNACK that assigns an identifier (3.2.2.3.7). Where each identifier is one that a desk assigns, none is (`named`).
/// - A connection has the Maximum Packet Size that its client has named, and keeps it (`same`).
/// - A packet that a client takes is written in no more bytes than its Maximum Packet Size, which is a number of four bytes (`measured`).
pub fn packet_size_law<P: HoldingPlace, S: Supply<P>>()
    ensures kept { (number now : ℕ) (phase phase' : ConnPhase P) (input : Input) (packets : List Packet) (next : Then) (old new : S) →
        AreNewEmpty S.call →
        Steps S.call P.slot_of old number phase now input packets next phase' new →
        HoldsWhatFits phase → HoldsWhatFits phase' }
    ensures fits { (number now : ℕ) (phase phase' : ConnPhase P) (input : Input) (packets : List Packet) (next : Then) (old new : S) →
        AreNewEmpty S.call →
        Steps S.call P.slot_of old number phase now input packets next phase' new →
        HoldsWhatFits phase → AllByRecursion (TakesUnlessAssigns (maximum_named phase input)) packets }
    ensures named { (number now : ℕ) (phase phase' : ConnPhase P) (input : Input) (packets : List Packet) (next : Then) (old new : S) →
        AreNewEmpty S.call → AreNamesAssigned S.call →
        Steps S.call P.slot_of old number phase now input packets next phase' new →
        HoldsWhatFits phase → AllByRecursion (Takes (maximum_named phase input)) packets }
    ensures same { (number now : ℕ) (phase phase' : ConnPhase P) (input : Input) (packets : List Packet) (next : Then) (old new : S) →
        Steps S.call P.slot_of old number phase now input packets next phase' new →
        HasMaximum (maximum_named phase input) phase' }
    ensures measured { (maximum : ℕ) (packet : Packet) → maximum ≤ 4294967295 → Takes (Some maximum) packet →
        length (written packet) ≤ maximum }
{}
