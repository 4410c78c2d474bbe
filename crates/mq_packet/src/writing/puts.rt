//! Writing the kinds of field. Writing a valid field fails only if the vector has no room for it
//! and can't grow.

ghost use Rattle.std.specs.Prelude.{◌≡◌, ◌≤◌, [], ◌∷◌, ◌++◌, true, OnOk, OnErr, vec_capacity};
ghost use Rattle.mq_wire.specs.Spellings.{max_varint, two_bytes_spelling, varint_spelling, text_spelling, binary_spelling};
ghost use Rattle.mq_packet.specs.Growing.{LacksRoom};
ghost use Rattle.mq_packet.specs.Valid.{is_text, is_binary};

use mq_wire::{PutFault, put_binary, put_text, put_u8, put_u16, put_varint};

/// Appends the bytes.
#[tactic(auto, using(crate::proofs::GrowingLaws::bytes_lack))]
pub fn put_bytes(out: &mut Vec<u8>, bytes: &[u8]) -> Result<(), PutFault>
    ensures ok { OnOk result (out.new.items ≡ out.old.items ++ bytes.now) }
    ensures capacity { vec_capacity out.old ≤ vec_capacity out.new }
    ensures err { OnErr result (LacksRoom (vec_capacity out.old) out.old.items bytes.now) }
{
    out.extend_from_slice(bytes).map_err(|_| PutFault::Memory)
}

/// Appends a byte.
#[tactic(auto, using(crate::proofs::GrowingLaws::number_lacks))]
pub fn put_byte(out: &mut Vec<u8>, byte: u8) -> Result<(), PutFault>
    ensures ok { OnOk result (out.new.items ≡ out.old.items ++ byte ∷ []) }
    ensures capacity { vec_capacity out.old ≤ vec_capacity out.new }
    ensures err { OnErr result (LacksRoom (vec_capacity out.old) out.old.items (byte ∷ [])) }
{
    put_u8(out, byte)
}

/// Appends a Two Byte Integer (MQTT 5.0, section 1.5.2).
#[tactic(auto, using(crate::proofs::GrowingLaws::number_lacks))]
pub fn put_number(out: &mut Vec<u8>, number: u16) -> Result<(), PutFault>
    ensures ok { OnOk result (out.new.items ≡ out.old.items ++ two_bytes_spelling number) }
    ensures capacity { vec_capacity out.old ≤ vec_capacity out.new }
    ensures err { OnErr result (LacksRoom (vec_capacity out.old) out.old.items (two_bytes_spelling number)) }
{
    put_u16(out, number)
}

/// Appends a length as a Variable Byte Integer (MQTT 5.0, section 1.5.5).
#[tactic(auto, using(crate::proofs::GrowingLaws::length_lacks))]
pub fn put_length(out: &mut Vec<u8>, number: u32) -> Result<(), PutFault>
    requires { number ≤ max_varint }
    ensures ok { OnOk result (out.new.items ≡ out.old.items ++ varint_spelling number) }
    ensures capacity { vec_capacity out.old ≤ vec_capacity out.new }
    ensures err { OnErr result (LacksRoom (vec_capacity out.old) out.old.items (varint_spelling number)) }
{
    put_varint(out, number)
}

/// Appends a UTF-8 Encoded String (MQTT 5.0, section 1.5.4).
#[tactic(auto, using(crate::proofs::GrowingLaws::text_lacks))]
pub fn put_string(out: &mut Vec<u8>, text: &str) -> Result<(), PutFault>
    requires { is_text text.now ≡ true }
    ensures ok { OnOk result (out.new.items ≡ out.old.items ++ text_spelling text.now) }
    ensures capacity { vec_capacity out.old ≤ vec_capacity out.new }
    ensures err { OnErr result (LacksRoom (vec_capacity out.old) out.old.items (text_spelling text.now)) }
{
    put_text(out, text)
}

/// Appends Binary Data (MQTT 5.0, section 1.5.6).
#[tactic(auto, using(crate::proofs::GrowingLaws::binary_lacks))]
pub fn put_data(out: &mut Vec<u8>, bytes: &[u8]) -> Result<(), PutFault>
    requires { is_binary bytes.now ≡ true }
    ensures ok { OnOk result (out.new.items ≡ out.old.items ++ binary_spelling bytes.now) }
    ensures capacity { vec_capacity out.old ≤ vec_capacity out.new }
    ensures err { OnErr result (LacksRoom (vec_capacity out.old) out.old.items (binary_spelling bytes.now)) }
{
    put_binary(out, bytes)
}
