//! What several tests use.

/// Whether a text is these parts, one after the other.
pub fn is_made_of(text: &[u8], parts: &[&str]) -> bool {
    let mut rest = text;
    for part in parts {
        match rest.strip_prefix(part.as_bytes()) {
            Some(after) => rest = after,
            None => return false,
        }
    }
    rest.is_empty()
}
