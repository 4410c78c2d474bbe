//! Writing fields at the end of a vector.

ghost use Rattle.std.specs.Prelude.{◌≡◌, ◌+◌, ◌%◌, ◌≤◌, ◌<◌, ◌++◌, ◌↔◌, ◌⊎◌, true, length, OnOk, OnErr, IfErr, vec_len};
ghost use Rattle.std.specs.Vec.{vec_capacity};
ghost use Rattle.mq_wire.specs.declared.fault.PutFault.TheVariants.{TooLong, Nul, Memory};
ghost use Rattle.mq_wire.specs.Spellings.{byte_spelling, two_bytes_spelling, four_bytes_spelling, varint_spelling, binary_spelling, text_spelling, pair_spelling, max_two_bytes, max_varint, has_nul, ReadsBack};
ghost use Rattle.mq_wire.specs.Fields.{byte_at, two_bytes_at, four_bytes_at, varint_at, text_at, binary_at, pair_at};

use crate::fault::PutFault;
use crate::limits::{MAX_LEN, MAX_VARINT, contains_nul};

/// Appends a byte.
///
/// Fails with `Memory` if the vector couldn't grow; the vector is then unchanged.
#[tactic(auto, using(crate::proofs::Back::byte_back))]
pub fn put_u8(out: &mut Vec<u8>, byte: u8) -> Result<(), PutFault>
    ensures ok { OnOk result (out.new.items ≡ out.old.items ++ byte_spelling byte) }
    ensures read_back { OnOk result (ReadsBack byte_at byte out.old.items out.new.items) }
    ensures err { OnErr result (out.new.items ≡ out.old.items) }
    ensures memory { IfErr result (λ fault. (fault ≡ Memory) × (vec_capacity out.old < vec_len out.old + 1)) }
    ensures capacity { vec_capacity out.old ≤ vec_capacity out.new }
{
    put_bytes(out, &[byte])
}

/// Appends a Two Byte Integer (MQTT 5.0, 1.5.2).
///
/// Fails with `Memory` if the vector couldn't grow; the vector is then unchanged.
#[tactic(auto, using(crate::proofs::Back::two_bytes_back))]
pub fn put_u16(out: &mut Vec<u8>, number: u16) -> Result<(), PutFault>
    ensures ok { OnOk result (out.new.items ≡ out.old.items ++ two_bytes_spelling number) }
    ensures read_back { OnOk result (ReadsBack two_bytes_at number out.old.items out.new.items) }
    ensures err { OnErr result (out.new.items ≡ out.old.items) }
    ensures memory { IfErr result (λ fault. (fault ≡ Memory) × (vec_capacity out.old < vec_len out.old + 2)) }
    ensures capacity { vec_capacity out.old ≤ vec_capacity out.new }
{
    put_bytes(out, &number.to_be_bytes())
}

/// Appends a Four Byte Integer (MQTT 5.0, 1.5.3).
///
/// Fails with `Memory` if the vector couldn't grow; the vector is then unchanged.
#[tactic(auto, using(crate::proofs::Back::four_bytes_back))]
pub fn put_u32(out: &mut Vec<u8>, number: u32) -> Result<(), PutFault>
    ensures ok { OnOk result (out.new.items ≡ out.old.items ++ four_bytes_spelling number) }
    ensures read_back { OnOk result (ReadsBack four_bytes_at number out.old.items out.new.items) }
    ensures err { OnErr result (out.new.items ≡ out.old.items) }
    ensures memory { IfErr result (λ fault. (fault ≡ Memory) × (vec_capacity out.old < vec_len out.old + 4)) }
    ensures capacity { vec_capacity out.old ≤ vec_capacity out.new }
{
    let bytes = number.to_be_bytes();
    put_bytes(out, &bytes)
}

/// Appends a Variable Byte Integer, from 0 to 268,435,455 (MQTT 5.0, 1.5.5).
///
/// Fails with `TooLong` if the number is larger, else with `Memory` if the vector couldn't grow;
/// the vector is then unchanged.
///
/// # Examples
///
/// ```
/// let mut out = Vec::new(rt.alloc());
/// put_varint(&mut out, 321)?;
/// assert_eq!(rt; out.as_slice(), b"\xC1\x02".as_slice());
/// ```
#[tactic(auto, using(crate::proofs::Back::varint_back), unfolding(crate::specs::Spellings::varint_spelling))]
pub fn put_varint(out: &mut Vec<u8>, number: u32) -> Result<(), PutFault>
    ensures ok { OnOk result (out.new.items ≡ out.old.items ++ varint_spelling number) }
    ensures read_back { OnOk result (ReadsBack varint_at number out.old.items out.new.items) }
    ensures err { OnErr result (out.new.items ≡ out.old.items) }
    ensures too_long { (result ≡ Err TooLong) ↔ (max_varint < number) }
    ensures memory { IfErr result (λ fault. (fault ≡ TooLong) ⊎ ((fault ≡ Memory) × (vec_capacity out.old < vec_len out.old + length (varint_spelling number)))) }
    ensures capacity { vec_capacity out.old ≤ vec_capacity out.new }
{
    match number {
        0..128 => put_bytes(out, &[number as u8]),
        128..16_384 => put_bytes(out, &[continuation_byte(number), (number / 128) as u8]),
        16_384..2_097_152 => put_bytes(
            out,
            &[
                continuation_byte(number),
                continuation_byte(number / 128),
                (number / 16_384) as u8,
            ],
        ),
        2_097_152..=MAX_VARINT => put_bytes(
            out,
            &[
                continuation_byte(number),
                continuation_byte(number / 128),
                continuation_byte(number / 16_384),
                (number / 2_097_152) as u8,
            ],
        ),
        _ => Err(PutFault::TooLong),
    }
}

// The low seven bits of the number, in a byte that says that another follows.
fn continuation_byte(number: u32) -> u8
    ensures { result ≡ 128 + number % 128 }
{
    128 + (number % 128) as u8
}

/// Appends Binary Data, at most 65,535 bytes (MQTT 5.0, 1.5.6).
///
/// Fails with `TooLong` if there are more, else with `Memory` if the vector couldn't grow; the
/// vector is then unchanged.
#[tactic(auto, using(crate::proofs::Back::binary_back))]
pub fn put_binary(out: &mut Vec<u8>, bytes: &[u8]) -> Result<(), PutFault>
    ensures ok { OnOk result (out.new.items ≡ out.old.items ++ binary_spelling bytes.now) }
    ensures read_back { OnOk result (ReadsBack binary_at bytes.now out.old.items out.new.items) }
    ensures err { OnErr result (out.new.items ≡ out.old.items) }
    ensures too_long { (result ≡ Err TooLong) ↔ (max_two_bytes < length bytes.now) }
    ensures memory { IfErr result (λ fault. (fault ≡ TooLong) ⊎ ((fault ≡ Memory) × (vec_capacity out.old < vec_len out.old + (2 + length bytes.now)))) }
    ensures capacity { vec_capacity out.old ≤ vec_capacity out.new }
{
    if bytes.len() > MAX_LEN {
        return Err(PutFault::TooLong);
    }
    reserve(out, 2 + bytes.len())?;
    append_counted(out, bytes);
    Ok(())
}

/// Appends a UTF-8 Encoded String, at most 65,535 bytes without U+0000 (MQTT 5.0, 1.5.4).
///
/// Fails with `TooLong` if there are more bytes, else with `Nul` if U+0000 is among the
/// characters, else with `Memory` if the vector couldn't grow; the vector is then unchanged.
///
/// # Examples
///
/// ```
/// let mut out = Vec::new(rt.alloc());
/// put_text(&mut out, "A\u{2A6D4}")?;
/// assert_eq!(rt; out.as_slice(), b"\x00\x05A\xF0\xAA\x9B\x94".as_slice());
/// ```
#[tactic(auto, using(crate::proofs::Back::text_back))]
pub fn put_text(out: &mut Vec<u8>, text: &str) -> Result<(), PutFault>
    ensures ok { OnOk result (out.new.items ≡ out.old.items ++ text_spelling text.now) }
    ensures read_back { OnOk result (ReadsBack text_at text.now out.old.items out.new.items) }
    ensures err { OnErr result (out.new.items ≡ out.old.items) }
    ensures too_long { (result ≡ Err TooLong) ↔ (max_two_bytes < length text.now) }
    ensures nul { (result ≡ Err Nul) ↔ ((length text.now ≤ max_two_bytes) × (has_nul text.now ≡ true)) }
    ensures memory { result ≡ Err Memory → vec_capacity out.old < vec_len out.old + (2 + length text.now) }
    ensures capacity { vec_capacity out.old ≤ vec_capacity out.new }
{
    if text.len() > MAX_LEN {
        return Err(PutFault::TooLong);
    }
    if contains_nul(text) {
        return Err(PutFault::Nul);
    }
    reserve(out, 2 + text.len())?;
    append_counted(out, text.as_bytes());
    Ok(())
}

/// Appends a UTF-8 String Pair, each text at most 65,535 bytes without U+0000 (MQTT 5.0, 1.5.7).
///
/// Fails with `TooLong` if either text has more bytes, else with `Nul` if U+0000 is among the
/// characters of either, else with `Memory` if the vector couldn't grow; the vector is then
/// unchanged.
#[tactic(auto, using(crate::proofs::Back::pair_back))]
pub fn put_pair(out: &mut Vec<u8>, name: &str, value: &str) -> Result<(), PutFault>
    ensures ok { OnOk result (out.new.items ≡ out.old.items ++ pair_spelling (name.now, value.now)) }
    ensures read_back { OnOk result (ReadsBack pair_at (name.now, value.now) out.old.items out.new.items) }
    ensures err { OnErr result (out.new.items ≡ out.old.items) }
    ensures too_long { (result ≡ Err TooLong) ↔ ((max_two_bytes < length name.now) ⊎ (max_two_bytes < length value.now)) }
    ensures nul { (result ≡ Err Nul) ↔ ((length name.now ≤ max_two_bytes) × (length value.now ≤ max_two_bytes) × ((has_nul name.now ≡ true) ⊎ (has_nul value.now ≡ true))) }
    ensures memory { result ≡ Err Memory → vec_capacity out.old < vec_len out.old + (4 + length name.now + length value.now) }
    ensures capacity { vec_capacity out.old ≤ vec_capacity out.new }
{
    if name.len() > MAX_LEN || value.len() > MAX_LEN {
        return Err(PutFault::TooLong);
    }
    if contains_nul(name) || contains_nul(value) {
        return Err(PutFault::Nul);
    }
    reserve(out, 4 + name.len() + value.len())?;
    append_counted(out, name.as_bytes());
    append_counted(out, value.as_bytes());
    Ok(())
}

// Appends the bytes, or nothing.
fn put_bytes(out: &mut Vec<u8>, bytes: &[u8]) -> Result<(), PutFault>
    ensures ok { OnOk result (out.new.items ≡ out.old.items ++ bytes.now) }
    ensures err { OnErr result (out.new.items ≡ out.old.items) }
    ensures memory { IfErr result (λ fault. (fault ≡ Memory) × (vec_capacity out.old < vec_len out.old + length bytes.now)) }
    ensures capacity { vec_capacity out.old ≤ vec_capacity out.new }
{
    out.extend_from_slice(bytes).map_err(|_| PutFault::Memory)
}

// Makes room for `additional` more bytes.
fn reserve(out: &mut Vec<u8>, additional: usize) -> Result<(), PutFault>
    ensures items { out.new.items ≡ out.old.items }
    ensures len { vec_len out.new ≡ vec_len out.old }
    ensures ok { OnOk result (vec_len out.new + additional ≤ vec_capacity out.new) }
    ensures memory { IfErr result (λ fault. (fault ≡ Memory) × (vec_capacity out.old < vec_len out.old + additional)) }
    ensures capacity { vec_capacity out.old ≤ vec_capacity out.new }
{
    out.reserve(additional).map_err(|_| PutFault::Memory)
}

// Appends the length of the bytes and then the bytes, for which there is room.
fn append_counted(out: &mut Vec<u8>, bytes: &[u8])
    requires short { length bytes.now ≤ max_two_bytes }
    requires room { vec_len out.old + (2 + length bytes.now) ≤ vec_capacity out.old }
    ensures items { out.new.items ≡ out.old.items ++ binary_spelling bytes.now }
    ensures len { vec_len out.new ≡ vec_len out.old + (2 + length bytes.now) }
    ensures capacity { vec_capacity out.old ≤ vec_capacity out.new }
{
    append(out, &(bytes.len() as u16).to_be_bytes());
    append(out, bytes);
}

// Appends the bytes, for which there is room.
fn append(out: &mut Vec<u8>, bytes: &[u8])
    requires { vec_len out.old + length bytes.now ≤ vec_capacity out.old }
    ensures items { out.new.items ≡ out.old.items ++ bytes.now }
    ensures len { vec_len out.new ≡ vec_len out.old + length bytes.now }
    ensures capacity { vec_capacity out.old ≤ vec_capacity out.new }
{
    out.extend_from_slice(bytes).unwrap();
}
