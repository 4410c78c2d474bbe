//! Laws of the definitions that the contracts of writing use, proved as the contracts of functions
//! that do nothing.

ghost use Rattle.std.specs.Prelude.{◌≡◌, ℕ, ◌+◌, ◌≤◌, true, List, ◌++◌, length, Ok};
ghost use Rattle.mq_wire.specs.Spellings.{max_varint};
ghost use Rattle.mq_packet.specs.Entries.{Entry};
ghost use Rattle.mq_packet.specs.Spelled.{IsSpelled};
ghost use Rattle.mq_packet.specs.Canonical.{first_byte_of, canonical_body, canonical};
ghost use Rattle.mq_packet.specs.Decoding.{body_start, decoded};
ghost use Rattle.mq_packet.specs.Frames.{cut_of};
ghost use Rattle.mq_packet.specs.declared.frame.Cut.TheVariants.{Frame};
ghost use Rattle.mq_packet.specs.Valid.{valid, IsTyped};

/// A packet is valid exactly if some bytes spell it, and then the bytes that are written are among
/// them.
#[tactic(auto, using(crate::proofs::CanonicalLaws::canonical_spelled, crate::proofs::ValidLaws::spelled_valid))]
pub fn what_is_valid_is_spelled()
    ensures written { (entry : Entry) → IsTyped entry → valid entry ≡ true → IsSpelled (first_byte_of entry) (canonical_body entry) entry }
    ensures valid { (first : ℕ) (body : List ℕ) (entry : Entry) → IsSpelled first body entry → valid entry ≡ true }
{}

/// A packet that is written is cut as one frame, whatever follows it.
#[tactic(auto, using(crate::proofs::WrittenLaws::written_cut))]
pub fn what_is_written_is_cut()
    ensures { (entry : Entry) (more : List ℕ) → length (canonical_body entry) ≤ max_varint → cut_of (canonical entry ++ more) ≡ Frame (first_byte_of entry) (body_start (length (canonical_body entry))) (body_start (length (canonical_body entry)) + length (canonical_body entry)) }
{}

/// A valid packet that is written is decoded as itself.
#[tactic(auto, using(crate::proofs::WrittenLaws::written_decoded))]
pub fn what_is_written_is_decoded()
    ensures { (entry : Entry) → IsTyped entry → valid entry ≡ true → decoded (first_byte_of entry) (canonical_body entry) ≡ Ok entry }
{}
