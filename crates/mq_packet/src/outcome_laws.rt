//! What a first byte and a body are decoded to: laws of the definitions, proved as the contracts of
//! functions that do nothing.

ghost use Rattle.std.specs.Prelude.{◌≡◌, ◌↔◌, ℕ, ◌⊎◌, List, Err};
ghost use Rattle.mq_wire.specs.Spellings.{AreBytes};
ghost use Rattle.mq_packet.specs.declared.rule.PacketRule.{PacketRule};
ghost use Rattle.mq_packet.specs.declared.fault.DecodeFault.TheVariants.{OtherVersion};
ghost use Rattle.mq_packet.specs.Entries.{Entry};
ghost use Rattle.mq_packet.specs.Decoding.{decoded};
ghost use Rattle.mq_packet.specs.Spelled.{IsSpelled, Breaks, IsOtherVersion};
ghost use Rattle.mq_packet.specs.Versions.{IsConnectOfVersion};

/// A first byte and a body are a CONNECT of another version exactly if the first byte is 0x10 and
/// the body begins with the text `MQTT`, with its length in two bytes before it, and a version that
/// isn't 5, whatever follows it (MQTT 5.0, sections 3.1.1, 3.1.2.1 and 3.1.2.2).
pub fn other_versions_are_named_first()
    // By what the fields are.
    ensures stands { (first : ℕ) (body : List ℕ) (version : ℕ) → IsOtherVersion first body version ↔ IsConnectOfVersion first body version }
    // By what is decoded.
    ensures decoded { (first : ℕ) (body : List ℕ) (version : ℕ) → AreBytes body → (decoded first body ≡ Err (OtherVersion version)) ↔ IsConnectOfVersion first body version }
{}

/// Each first byte and body spell one packet, break one rule at one place, or are a CONNECT of one
/// other version; and never two of the three (MQTT 5.0, sections 2.1 and 3.1 to 3.15).
pub fn packet_fault_or_other_version()
    // One of the three holds.
    ensures some { (first : ℕ) (body : List ℕ) → AreBytes body → ((entry : Entry) × IsSpelled first body entry) ⊎ (((at : ℕ) × (rule : PacketRule) × Breaks first body at rule) ⊎ ((version : ℕ) × IsOtherVersion first body version)) }
    // They don't spell two packets.
    ensures one_packet { (first : ℕ) (body : List ℕ) (entry other : Entry) → AreBytes body → IsSpelled first body entry → IsSpelled first body other → entry ≡ other }
    // They don't break two rules, nor one at two places.
    ensures one_fault { (first : ℕ) (body : List ℕ) (at place : ℕ) (rule other : PacketRule) → AreBytes body → Breaks first body at rule → Breaks first body place other → (at ≡ place) × (rule ≡ other) }
    // They don't have two versions.
    ensures one_version { (first : ℕ) (body : List ℕ) (version other : ℕ) → AreBytes body → IsOtherVersion first body version → IsOtherVersion first body other → version ≡ other }
    // What spells a packet breaks no rule.
    ensures no_fault { (first : ℕ) (body : List ℕ) (entry : Entry) (at : ℕ) (rule : PacketRule) → AreBytes body → IsSpelled first body entry → ¬ Breaks first body at rule }
    // It isn't a CONNECT of another version.
    ensures no_version { (first : ℕ) (body : List ℕ) (entry : Entry) (version : ℕ) → AreBytes body → IsSpelled first body entry → ¬ IsOtherVersion first body version }
    // What breaks a rule isn't one either.
    ensures not_both { (first : ℕ) (body : List ℕ) (at : ℕ) (rule : PacketRule) (version : ℕ) → AreBytes body → Breaks first body at rule → ¬ IsOtherVersion first body version }
{}
