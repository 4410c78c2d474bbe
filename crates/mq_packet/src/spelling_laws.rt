//! Which bytes spell a packet, and which are written: laws of the definitions, proved as the
//! contracts of functions that do nothing.

ghost use Rattle.std.specs.Prelude.{◌≡◌, ◌≢◌, ◌↔◌, ◌⊎◌, ℕ, ◌≤◌, true, false, List, [], ◌∷◌, ◌++◌, length, Ok};
ghost use Rattle.mq_props.specs.declared.table.Place.TheVariants as places;
ghost use Rattle.mq_wire.specs.Spellings.{AreBytes, max_varint, varint_spelling};
ghost use Rattle.mq_packet.specs.declared.packet.PacketType.TheVariants.{Auth};
ghost use Rattle.mq_packet.specs.declared.packet.AcknowledgementKind.TheVariants.{Puback};
ghost use Rattle.mq_packet.specs.Entries.{Entry, acknowledgement, pingreq, auth, none_listed};
ghost use Rattle.mq_packet.specs.Decoding.{decoded};
ghost use Rattle.mq_packet.specs.Spelled.{IsSpelled};
ghost use Rattle.mq_packet.specs.Canonical.{type_of, first_byte_of, canonical_body, canonical};
ghost use Rattle.mq_packet.specs.Valid.{valid, IsTyped};
ghost use Rattle.mq_packet.specs.ShortForms.{IsSpelling, has_short_form, IsShortFor, BeginsWithPacket};

/// A packet has one spelling, a first byte and a body, except for the short forms of a PUBACK,
/// PUBREC, PUBREL, PUBCOMP, DISCONNECT or AUTH without properties: the length of the empty list may
/// be left out, and then the Reason Code 0x00 too (MQTT 5.0, sections 3.4.2.1 to 3.7.2.1, 3.14.2.1
/// and 3.15.2.1).
pub fn each_packet_has_one_spelling()
    // The bytes spell a packet exactly if it is valid, and they are its first byte and the body
    // that is written or one that is short for it.
    ensures exactly { (first : ℕ) (body : List ℕ) (entry : Entry) → IsSpelled first body entry ↔ IsSpelling first body entry }
    // Two spellings of one packet are equal, or one of them is short for the other.
    ensures two { (first other : ℕ) (body more : List ℕ) (entry : Entry) → IsSpelled first body entry → IsSpelled other more entry → (first ≡ other) × ((body ≡ more) ⊎ ((has_short_form entry ≡ true) × (IsShortFor body more ⊎ IsShortFor more body))) }
    // The body that is written is the shortest, except that an AUTH has the length of its
    // properties unless it is empty.
    ensures shortest { (first : ℕ) (body : List ℕ) (entry : Entry) → type_of entry ≢ Auth → IsSpelled first body entry → length (canonical_body entry) ≤ length body }
{}

/// A valid packet is written as one frame, whatever follows it, and that frame is read as the
/// packet (MQTT 5.0, section 2.1).
pub fn what_is_written_is_read()
    ensures { (entry : Entry) (more : List ℕ) → IsTyped entry → valid entry ≡ true → length (canonical_body entry) ≤ max_varint → BeginsWithPacket (canonical entry ++ more) entry }
{}

/// A packet that is read can be written, if there is memory: the bytes are those that were read,
/// except for short forms, and are read as the packet again (MQTT 5.0, section 2.1).
pub fn what_is_read_is_written()
    // It is valid, as `encode` requires.
    ensures valid { (first : ℕ) (body : List ℕ) (entry : Entry) → AreBytes body → decoded first body ≡ Ok entry → IsTyped entry × (valid entry ≡ true) }
    // It isn't too long to be written (section 2.1.4).
    ensures fits { (first : ℕ) (body : List ℕ) (entry : Entry) → AreBytes body → decoded first body ≡ Ok entry → length body ≤ max_varint → length (canonical_body entry) ≤ max_varint }
    // A packet without short forms is written as the frame that was read.
    ensures same { (first : ℕ) (body : List ℕ) (entry : Entry) → AreBytes body → decoded first body ≡ Ok entry → has_short_form entry ≡ false → canonical entry ≡ first ∷ (varint_spelling (length body) ++ body) }
    // Any other is written as that frame, except for what a short form leaves out (sections
    // 3.4.2.1, 3.14.2.1 and 3.15.2.1).
    ensures short { (first : ℕ) (body : List ℕ) (entry : Entry) → AreBytes body → decoded first body ≡ Ok entry → (first_byte_of entry ≡ first) × ((canonical_body entry ≡ body) ⊎ ((has_short_form entry ≡ true) × (IsShortFor (canonical_body entry) body ⊎ IsShortFor body (canonical_body entry)))) }
    // It is read as the packet again.
    ensures again { (first : ℕ) (body : List ℕ) (entry : Entry) → AreBytes body → decoded first body ≡ Ok entry → decoded (first_byte_of entry) (canonical_body entry) ≡ Ok entry }
{}

/// Short examples, computed from the definitions alone (MQTT 5.0, sections 3.4, 3.12 and 3.15).
#[tactic(auto, unfolding(crate::specs::Canonical::canonical, crate::specs::Canonical::acknowledgement_body, crate::specs::Canonical::auth_body, crate::specs::Decoding::decoded, crate::specs::Decoding::body_start, mq_wire::specs::Spellings::varint_spelling, mq_wire::specs::Fields::varint_at, mq_props::specs::Reading::properties_on, mq_props::specs::Reading::list_on))]
pub fn worked_spellings()
    ensures pingreq { canonical pingreq ≡ 192 ∷ 0 ∷ [] }
    // A PUBACK is written without the Reason Code 0x00, and may be read with it, and with no
    // properties as well.
    ensures puback { canonical (acknowledgement Puback 1 0 (none_listed places.Puback)) ≡ 64 ∷ 2 ∷ 0 ∷ 1 ∷ [] }
    ensures puback_bare { decoded 64 (0 ∷ 1 ∷ []) ≡ Ok (acknowledgement Puback 1 0 (none_listed places.Puback)) }
    ensures puback_with_code { decoded 64 (0 ∷ 1 ∷ 0 ∷ []) ≡ Ok (acknowledgement Puback 1 0 (none_listed places.Puback)) }
    ensures puback_whole { decoded 64 (0 ∷ 1 ∷ 0 ∷ 0 ∷ []) ≡ Ok (acknowledgement Puback 1 0 (none_listed places.Puback)) }
    // An AUTH is written with the length of its properties, and may be read without.
    ensures auth { canonical (auth 24 (none_listed places.Auth)) ≡ 240 ∷ 2 ∷ 24 ∷ 0 ∷ [] }
    ensures auth_short { decoded 240 (24 ∷ []) ≡ Ok (auth 24 (none_listed places.Auth)) }
{}
