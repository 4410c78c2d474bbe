//! What is written is read back: laws of the definitions, each proved as the contract of a function
//! that does nothing.
ghost use Rattle.std.specs.Prelude.{◌≡◌, ◌==◌, ℕ, ◌<◌, ◌≤◌, ◌^◌, List, ◌++◌, length, drop, slice_index, Some};
ghost use Rattle.std.specs.Int.{w16, from_be_bytes};
ghost use Rattle.mq_log.specs.declared.header.Header.{Header as AnyHeader};
ghost use Rattle.mq_log.specs.Framing.{record_size, kind_of, moment_in, head_length};
ghost use Rattle.mq_trace.specs.Writing.{Record, release_record, record_kind, record_body, record_bytes, header_bytes};

/// A record is read back as it was written, whatever follows it, in each version.
pub fn records_are_read_back()
    ensures size { (version moment : ℕ) (entry : Record) (rest : List ℕ) → length (record_body entry) ≤ 16777216
        → record_size (head_length version) (record_bytes version moment entry ++ rest) ≡ Some (length (record_bytes version moment entry)) }
    ensures kind { (version moment : ℕ) (entry : Record) (rest : List ℕ) → kind_of (record_bytes version moment entry ++ rest) ≡ Some (record_kind entry) }
    ensures body { (version moment : ℕ) (entry : Record) → drop (head_length version) (record_bytes version moment entry) ≡ record_body entry }
    ensures moment { (moment : ℕ) (entry : Record) (rest : List ℕ) → moment < 2 ^ 64 → moment_in (head_length 2) (record_bytes 2 moment entry ++ rest) ≡ moment }
    ensures identifier { (identifier : ℕ) → identifier < 2 ^ 16 → from_be_bytes w16 (record_body (release_record identifier)) ≡ identifier }
{}

/// A header is read back as it was written, whatever follows it: it has eight bytes, of which byte
/// 4 is the version, byte 5 names the end and byte 6 says whether releases are recorded.
pub fn headers_are_read_back()
    ensures version { (header : AnyHeader) (rest : List ℕ) → slice_index (header_bytes header ++ rest) 4 ≡ header.version }
    ensures server { (header : AnyHeader) (rest : List ℕ) → (slice_index (header_bytes header ++ rest) 5 == 1) ≡ header.server }
    ensures releases { (header : AnyHeader) (rest : List ℕ) → (slice_index (header_bytes header ++ rest) 6 == 1) ≡ header.releases }
    ensures after { (header : AnyHeader) (rest : List ℕ) → drop 8 (header_bytes header ++ rest) ≡ rest }
{}
