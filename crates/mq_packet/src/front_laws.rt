//! What is at the front of a stream: laws of the definitions, proved as the contracts of functions
//! that do nothing.

ghost use Rattle.std.specs.Prelude.{◌≡◌, ◌↔◌, ℕ, List, [], ◌∷◌, ◌++◌};
ghost use Rattle.mq_wire.specs.Spellings.{AreBytes};
ghost use Rattle.mq_packet.specs.declared.frame.Cut.{Cut};
ghost use Rattle.mq_packet.specs.declared.frame.Cut.TheVariants.{Need, Frame, Lost};
ghost use Rattle.mq_packet.specs.Frames.{BeginsWithFrame, cut_of};
ghost use Rattle.mq_packet.specs.Fronts.{IsBeginning, IsLost, IsCutOf};

/// The bytes at the front of a stream begin with a whole packet, are the beginning of one, or are
/// lost: exactly one of the three, and that is how they are cut (MQTT 5.0, sections 2.1.4 and
/// 1.5.5).
pub fn each_front_is_one_of_three()
    // More bytes are needed exactly if the bytes, with more after them, are a packet (sections
    // 2.1.1 and 2.1.4).
    ensures need { (bytes : List ℕ) → AreBytes bytes → (cut_of bytes ≡ Need) ↔ IsBeginning bytes }
    // A frame is cut exactly if they begin with a packet: a first byte, the shortest spelling of a
    // length, and that many bytes (sections 2.1.1 and 2.1.4).
    ensures frame { (bytes : List ℕ) (first start end : ℕ) → AreBytes bytes → (cut_of bytes ≡ Frame first start end) ↔ BeginsWithFrame bytes first start end }
    // They are lost exactly if what follows the first byte neither begins with a spelling of a
    // Variable Byte Integer nor is a prefix of one (section 1.5.5).
    ensures lost { (bytes : List ℕ) → AreBytes bytes → (cut_of bytes ≡ Lost) ↔ IsLost bytes }
    // That is so exactly if they can't be the beginning of a packet, whatever follows.
    ensures never { (bytes : List ℕ) → AreBytes bytes → IsLost bytes ↔ ((more : List ℕ) (first start end : ℕ) → ¬ BeginsWithFrame (bytes ++ more) first start end) }
    // Exactly one of the three holds.
    ensures one { (bytes : List ℕ) → AreBytes bytes → (cut : Cut) × IsCutOf bytes cut × ((other : Cut) → IsCutOf bytes other → cut ≡ other) }
{}

/// Short examples, computed from the definitions alone (MQTT 5.0, sections 2.1.4 and 1.5.5).
#[tactic(auto, unfolding(crate::specs::Frames::cut_of, crate::specs::Stream::fixed_header_of, mq_wire::specs::Fields::varint_at))]
pub fn worked_fronts()
    ensures empty { cut_of [] ≡ Need }
    ensures first_byte { cut_of (192 ∷ []) ≡ Need }
    ensures pingreq { cut_of (192 ∷ 0 ∷ []) ≡ Frame 192 2 2 }
    ensures followed { cut_of (192 ∷ 0 ∷ 208 ∷ []) ≡ Frame 192 2 2 }
    ensures body_missing { cut_of (64 ∷ 2 ∷ 0 ∷ []) ≡ Need }
    ensures length_begun { cut_of (48 ∷ 128 ∷ []) ≡ Need }
    // 0 is spelled in one byte, and no length in more than four.
    ensures length_too_long { cut_of (192 ∷ 128 ∷ 0 ∷ []) ≡ Lost }
    ensures length_endless { cut_of (48 ∷ 128 ∷ 128 ∷ 128 ∷ 128 ∷ []) ≡ Lost }
{}
