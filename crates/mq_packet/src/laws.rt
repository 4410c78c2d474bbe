//! Laws of the definitions that the contracts of `cut` and `decode` use, proved as the contracts of
//! functions that do nothing.

ghost use Rattle.std.specs.Prelude.{◌≡◌, ℕ, ◌≤◌, true, List, ◌++◌, length, Some, None, Result};
ghost use Rattle.mq_wire.specs.Spellings.{AreBytes};
ghost use Rattle.mq_packet.specs.declared.fault.DecodeFault.{DecodeFault};
ghost use Rattle.mq_packet.specs.Entries.{Entry};
ghost use Rattle.mq_packet.specs.Stream.{frame_size, is_lost};
ghost use Rattle.mq_packet.specs.Spelled.{DecodesTo};

/// Each first byte and body are exactly one of these: a packet that they spell, a rule that they
/// break at one offset, or a CONNECT of one other version of the protocol.
#[tactic(auto, using(crate::proofs::Readings::one_outcome))]
pub fn each_body_comes_to_one_thing()
    ensures { (first : ℕ) (body : List ℕ) → AreBytes body → (outcome : Result Entry DecodeFault) × DecodesTo first body outcome × ((other : Result Entry DecodeFault) → DecodesTo first body other → outcome ≡ other) }
{}

/// What is at the front of a stream stays the same whatever follows: a frame, in each beginning of
/// the stream that holds it, or an invalid Remaining Length, with which there is no frame.
#[tactic(auto, using(crate::proofs::StreamLaws::frame_stays, crate::proofs::StreamLaws::is_lost_stays, crate::proofs::StreamLaws::lost_no_frame))]
pub fn the_front_of_a_stream_stays()
    ensures stays { (a c : List ℕ) (n : ℕ) → frame_size a ≡ Some n → frame_size (a ++ c) ≡ Some n }
    ensures stood { (a c : List ℕ) (n : ℕ) → frame_size (a ++ c) ≡ Some n → n ≤ length a → frame_size a ≡ Some n }
    ensures lost { (a c : List ℕ) → is_lost a ≡ true → is_lost (a ++ c) ≡ true }
    ensures no_frame { (a : List ℕ) → is_lost a ≡ true → frame_size a ≡ None }
{}
