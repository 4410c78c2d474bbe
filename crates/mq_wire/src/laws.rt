//! Laws of the fields. Each is proved as the contract of a function that does nothing.

ghost use Rattle.std.specs.Prelude.{◌≡◌, ◌↔◌, ℕ, List};
ghost use Rattle.mq_wire.specs.declared.fault.Reason.{Reason};
ghost use Rattle.mq_wire.specs.Fields.{byte_at, two_bytes_at, four_bytes_at, varint_at, text_at, binary_at, pair_at};
ghost use Rattle.mq_wire.specs.FieldTypes.{FieldType, one_byte, two_byte_integer, four_byte_integer, variable_byte_integer, utf8_string, string_pair, binary_data, IsFieldValue, field_spelling};
ghost use Rattle.mq_wire.specs.Misspelled.{BeginsWithNone, Misspelled, RefusesMisspelled};
ghost use Rattle.mq_wire.specs.Spellings.{AreBytes, IsExact, IsByte, byte_spelling, IsTwoBytes, two_bytes_spelling, IsFourBytes, four_bytes_spelling, IsVarint, varint_spelling, IsBinary, binary_spelling, IsText, text_spelling, IsPair, pair_spelling};

/// A byte: exactly its spellings are read.
#[tactic(auto, using(crate::proofs::Exact::byte_exact))]
pub fn byte_is_exact()
    ensures { IsExact byte_at IsByte byte_spelling }
{}

/// A Two Byte Integer: exactly its spellings are read (MQTT 5.0, 1.5.2).
#[tactic(auto, using(crate::proofs::Exact::two_bytes_exact))]
pub fn two_bytes_is_exact()
    ensures { IsExact two_bytes_at IsTwoBytes two_bytes_spelling }
{}

/// A Four Byte Integer: exactly its spellings are read (MQTT 5.0, 1.5.3).
#[tactic(auto, using(crate::proofs::Exact::four_bytes_exact))]
pub fn four_bytes_is_exact()
    ensures { IsExact four_bytes_at IsFourBytes four_bytes_spelling }
{}

/// A Variable Byte Integer: exactly its spellings are read (MQTT 5.0, 1.5.5).
#[tactic(auto, using(crate::proofs::Varint::varint_exact))]
pub fn varint_is_exact()
    ensures { IsExact varint_at IsVarint varint_spelling }
{}

/// Binary Data: exactly its spellings are read (MQTT 5.0, 1.5.6).
#[tactic(auto, using(crate::proofs::Exact::binary_exact))]
pub fn binary_is_exact()
    ensures { IsExact binary_at IsBinary binary_spelling }
{}

/// A UTF-8 Encoded String: exactly its spellings are read (MQTT 5.0, 1.5.4).
#[tactic(auto, using(crate::proofs::Exact::text_exact))]
pub fn text_is_exact()
    ensures { IsExact text_at IsText text_spelling }
{}

/// A UTF-8 String Pair: exactly its spellings are read (MQTT 5.0, 1.5.7).
#[tactic(auto, using(crate::proofs::Exact::pair_exact))]
pub fn pair_is_exact()
    ensures { IsExact pair_at IsPair pair_spelling }
{}

/// A byte: it is refused exactly if the bytes end before it, as `Short`.
#[tactic(auto, using(crate::proofs::MisspelledLaws::byte_misspelled))]
pub fn byte_is_refused()
    ensures { RefusesMisspelled byte_at one_byte }
{}

/// A Two Byte Integer: it is refused exactly if the bytes end before it does, as `Short` (MQTT 5.0,
/// 1.5.2).
#[tactic(auto, using(crate::proofs::MisspelledLaws::two_bytes_misspelled))]
pub fn two_bytes_is_refused()
    ensures { RefusesMisspelled two_bytes_at two_byte_integer }
{}

/// A Four Byte Integer: it is refused exactly if the bytes end before it does, as `Short` (MQTT
/// 5.0, 1.5.3).
#[tactic(auto, using(crate::proofs::MisspelledLaws::four_bytes_misspelled))]
pub fn four_bytes_is_refused()
    ensures { RefusesMisspelled four_bytes_at four_byte_integer }
{}

/// A Variable Byte Integer: bytes that end before it does are `Short`, and those in which it has a
/// shorter form or is longer than four bytes are `Overlong` (MQTT 5.0, 1.5.5).
#[tactic(auto, using(crate::proofs::MisspelledLaws::varint_misspelled))]
pub fn varint_is_refused()
    ensures { RefusesMisspelled varint_at variable_byte_integer }
{}

/// Binary Data: it is refused exactly if the bytes end before it does, as `Short` (MQTT 5.0,
/// 1.5.6).
#[tactic(auto, using(crate::proofs::MisspelledLaws::binary_misspelled))]
pub fn binary_is_refused()
    ensures { RefusesMisspelled binary_at binary_data }
{}

/// A UTF-8 Encoded String: bytes that end before it does are `Short`, else those that aren't
/// well-formed UTF-8 are `NotUtf8`, else those with U+0000 are `Nul` (MQTT 5.0, 1.5.4).
#[tactic(auto, using(crate::proofs::MisspelledLaws::text_misspelled))]
pub fn text_is_refused()
    ensures { RefusesMisspelled text_at utf8_string }
{}

/// A UTF-8 String Pair: refused as its first text is, else as its second (MQTT 5.0, 1.5.7).
#[tactic(auto, using(crate::proofs::MisspelledLaws::pair_misspelled))]
pub fn pair_is_refused()
    ensures { RefusesMisspelled pair_at string_pair }
{}

/// Bytes are misspelled for some reason exactly if they don't begin with a value of the type
/// (MQTT 5.0, 1.5).
pub fn misspelled_is_unspelled()
    ensures none { (type : FieldType) (bytes : List ℕ) → AreBytes bytes
        → ((reason : Reason) × Misspelled type bytes reason) ↔ BeginsWithNone (IsFieldValue type) (field_spelling type) bytes }
    ensures once { (type : FieldType) (bytes : List ℕ) (reason other : Reason) → AreBytes bytes
        → Misspelled type bytes reason → Misspelled type bytes other → reason ≡ other }
{}
