//! Laws of the definitions, over every packet and every stream: each is the contract of a function that does nothing.

ghost use Rattle.std.specs.Prelude.{◌≡◌, ◌≤◌, ◌↔◌, List, ℕ, ◌∷◌, ◌++◌, length, Option, Some, None, Err};
ghost use Rattle.mqtt_fields.specs.declared.fault.StreamFault.{StreamFault};
ghost use Rattle.mqtt_packet.specs.declared.packet.Packet.{Packet as AnyPacket};
ghost use Rattle.mqtt_wire.specs.declared.kind.Kind.{Kind};
ghost use Rattle.mqtt_wire.specs.Bodies.{body_at};
ghost use Rattle.mqtt_wire.specs.FirstFaults.{BodyFault};
ghost use Rattle.mqtt_wire.specs.Writing.{written};
ghost use Rattle.mqtt_wire.specs.Spelling.{Spells, maximum_packet_size};
ghost use Rattle.mqtt_wire.specs.Ranges.{IsFromClient, PropertiesFit};
ghost use Rattle.mqtt_fields.specs.Forms.{AreBytes};
ghost use Rattle.mqtt_wire.specs.Stream.{Reads, Reading};

/// No spelling of a packet is a proper beginning of another, and no bytes spell two packets.
pub fn spellings_are_told_apart()
    ensures { (p q : AnyPacket) (a x b y : List ℕ) →
        Spells p a → Spells q b → a ++ x ≡ b ++ y → (p ≡ q) × (a ≡ b) × (x ≡ y) }
{}

/// Each stream of bytes has exactly one reading: its packets, what is left behind them, and the fault in front of that
/// where there is one.
pub fn streams_have_one_reading()
    ensures exists { (stream : List ℕ) → AreBytes stream → Reading stream }
    ensures unique { (stream : List ℕ) (ps : List AnyPacket) (r : List ℕ) (f : Option StreamFault)
        (qs : List AnyPacket) (s : List ℕ) (g : Option StreamFault) →
        Reads stream ps r f → Reads stream qs s g → (ps ≡ qs) × (r ≡ s) × (f ≡ g) }
{}

/// In whatever pieces a stream comes, it is read alike: the packets of a piece are those of the stream, and what is left of it
/// is read on with the next piece; a fault that shows in a piece is the fault of the stream, whatever follows.
pub fn pieces_are_read_as_the_whole()
    ensures goes_on { (piece next : List ℕ) (packets others : List AnyPacket) (rest last : List ℕ)
        (fault : Option StreamFault) → Reads piece packets rest None → Reads (rest ++ next) others last fault →
        Reads (piece ++ next) (packets ++ others) last fault }
    ensures faulty { (piece next : List ℕ) (packets : List AnyPacket) (rest : List ℕ) (fault : StreamFault) →
        AreBytes piece → Reads piece packets rest (Some fault) →
        Reads (piece ++ next) packets (rest ++ next) (Some fault) }
{}

/// What `encode` writes of a packet that a client may send is a spelling of it, and is read again as that packet,
/// whatever follows it.
pub fn written_packets_are_read_again()
    ensures spelled { (packet : AnyPacket) → IsFromClient packet → PropertiesFit packet →
        length (written packet) ≤ maximum_packet_size → Spells packet (written packet) }
    ensures again { (packet : AnyPacket) (after : List ℕ) (all : List AnyPacket) (rest : List ℕ)
        (fault : Option StreamFault) → IsFromClient packet → PropertiesFit packet →
        length (written packet) ≤ maximum_packet_size →
        Reads (written packet ++ after) all rest fault →
        (others : List AnyPacket) × (all ≡ packet ∷ others) × Reads after others rest fault }
{}

/// The fault of a body is that of the first of its fields that is at fault, in the order in which the standard lists them,
/// whatever stands behind it; where no field is, there is none.
pub fn first_fault_counts()
    ensures { (kind : Kind) (body : List ℕ) (fault : StreamFault) → (body_at kind body ≡ Err fault) ↔ BodyFault kind body fault }
{}
