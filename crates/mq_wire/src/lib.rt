//! The fields that MQTT 5.0 packets are made of (MQTT 5.0, 1.5): read from bytes without a copy,
//! and written to a vector.
//!
//! # Examples
//!
//! ```
//! let mut cursor = Cursor::new(b"\x00\x0A\x00\x03a/b");
//! assert_eq!(rt; cursor.u16()?, 10);
//! assert_eq!(rt; cursor.text()?, "a/b");
//! assert!(rt; cursor.is_empty());
//! ```
#![tactic(auto)]

mod cursor;
mod fault;
mod laws;
mod limits;
mod plain;
mod put;

pub use cursor::Cursor;
pub use fault::{PutFault, Reason, WireFault};
pub use laws::{
    binary_is_exact, binary_is_refused, byte_is_exact, byte_is_refused, four_bytes_is_exact,
    four_bytes_is_refused, misspelled_is_unspelled, pair_is_exact, pair_is_refused, text_is_exact,
    text_is_refused, two_bytes_is_exact, two_bytes_is_refused, varint_is_exact, varint_is_refused,
};
pub use limits::{MAX_LEN, MAX_VARINT, contains_nul, varint_len};
pub use put::{put_binary, put_pair, put_text, put_u8, put_u16, put_u32, put_varint};
