//! Which byte is marked of a packet that breaks a rule.
#![tactic(auto)]

ghost use Rattle.std.specs.Prelude.{◌≡◌, ◌<◌, ◌≤◌, ◌+◌, ◌^◌, IfSome, IsNone, length};
ghost use Rattle.mq_display.specs.Marking.{begins_level, ends_level, first_wrong, first_place, is_misplaced, is_of_each_text, is_wildcard, is_wrong, marked_at, not_utf8_at, text_end, wrong_after, wrong_from};

use mq_packet::PacketRule;

/// How many bytes say how long a text is (MQTT 5.0, section 1.5.4).
const LENGTH: usize = 2;

/// The offset of the byte that is marked in a packet that has these bytes and breaks a rule at this
/// offset. In a text, whose length is at the offset, it is the first byte that is wrong: the one
/// after all characters that are UTF-8 (W04), a U+0000 (W05), a wildcard (W14), or a wildcard that
/// doesn't stand where it may (W15). For another rule, and where no byte is wrong, as in an empty
/// Topic Filter, it is the one at the offset.
pub fn marked_at(bytes: &[u8], rule: PacketRule, at: u32) -> usize
    ensures is { result ≡ marked_at bytes.now rule at }
    ensures bound { result < 2 ^ 33 }
{
    let at = at as usize;
    match wrong_from(bytes, rule, at) {
        Some(offset) => offset,
        None => match wrong_after(bytes, rule, at) {
            Some(offset) => offset,
            None => at,
        },
    }
}

// The offset of the first wrong byte in the text at this offset.
fn wrong_from(bytes: &[u8], rule: PacketRule, at: usize) -> Option<usize>
    requires { at < 2 ^ 32 + 2 ^ 17 }
    ensures is { result ≡ wrong_from bytes.now rule at }
    ensures bound { IfSome result (λ offset. offset < at + 2 + 2 ^ 16) }
{
    let end = text_end(bytes, at)?;
    let begin = at + LENGTH;
    let place = first_wrong(rule, &bytes[begin..end])?;
    Some(begin + place)
}

// The same in the text after that one: a User Property has two (MQTT 5.0, section 1.5.7).
fn wrong_after(bytes: &[u8], rule: PacketRule, at: usize) -> Option<usize>
    requires { at < 2 ^ 32 }
    ensures is { result ≡ wrong_after bytes.now rule at }
    ensures bound { IfSome result (λ offset. offset < at + 4 + 2 ^ 17) }
{
    if !is_of_each_text(rule) {
        return None;
    }
    wrong_from(bytes, rule, text_end(bytes, at)?)
}

// Whether a rule is on each text of a packet.
fn is_of_each_text(rule: PacketRule) -> bool
    ensures { result ≡ is_of_each_text rule }
{
    match rule {
        PacketRule::W04 | PacketRule::W05 => true,
        _ => false,
    }
}

// The offset after the text at this offset, if it lies within the packet.
fn text_end(bytes: &[u8], at: usize) -> Option<usize>
    requires { at < 2 ^ 32 + 2 ^ 17 }
    ensures end { IfSome result (λ end. (end ≡ text_end bytes.now at) × (at + 2 ≤ end) × (end < at + 2 + 2 ^ 16) × (end ≤ length bytes.now)) }
    ensures none { IsNone result → length bytes.now < text_end bytes.now at }
{
    let begin = at + LENGTH;
    if begin > bytes.len() {
        return None;
    }
    let end = begin + usize::from(u16::from_be_bytes([bytes[at], bytes[at + 1]]));
    if end > bytes.len() {
        return None;
    }
    Some(end)
}

// The first place of a text that is wrong.
fn first_wrong(rule: PacketRule, text: &[u8]) -> Option<usize>
    ensures is { result ≡ first_wrong rule text.now }
    ensures bound { IfSome result (λ place. place < length text.now) }
{
    match rule {
        PacketRule::W04 => not_utf8_at(text),
        _ => first_place(rule, text),
    }
}

// The first place of a text after all characters that are UTF-8.
#[tactic(auto, using(crate::proofs::MarkingLaws::no_place_in_utf8, crate::proofs::MarkingLaws::place_after_utf8))]
fn not_utf8_at(text: &[u8]) -> Option<usize>
    ensures is { result ≡ not_utf8_at text.now }
    ensures bound { IfSome result (λ place. place < length text.now) }
{
    match str::from_utf8(text) {
        Ok(_) => None,
        Err(error) => Some(error.valid_up_to()),
    }
}

// The first place of a text whose byte is wrong by itself or by those beside it.
#[tactic(auto, using(crate::proofs::MarkingLaws::first_is))]
fn first_place(rule: PacketRule, text: &[u8]) -> Option<usize>
    ensures is { result ≡ first_place (is_wrong rule text.now) (length text.now) }
    ensures bound { IfSome result (λ place. place < length text.now) }
{
    for place in 0..text.len() {
        if is_wrong(rule, text, place) {
            return Some(place);
        }
    }
    None
}

// Whether the byte at a place of a text is wrong.
fn is_wrong(rule: PacketRule, text: &[u8], place: usize) -> bool
    requires { place < length text.now }
    ensures { result ≡ is_wrong rule text.now place }
{
    match rule {
        PacketRule::W05 => text[place] == 0,
        PacketRule::W14 => is_wildcard(text[place]),
        PacketRule::W15 => is_misplaced(text, place),
        _ => false,
    }
}

// Whether a byte is `#` or `+`.
fn is_wildcard(byte: u8) -> bool
    ensures { result ≡ is_wildcard byte }
{
    byte == b'#' || byte == b'+'
}

// Whether a wildcard is at a place of a Topic Filter where it may not be.
fn is_misplaced(filter: &[u8], place: usize) -> bool
    requires { place < length filter.now }
    ensures { result ≡ is_misplaced filter.now place }
{
    let byte = filter[place];
    let is_alone = begins_level(filter, place) && ends_level(filter, place);
    (is_wildcard(byte) && !is_alone) || (byte == b'#' && place + 1 != filter.len())
}

// Whether a level of a Topic Filter begins at this place.
fn begins_level(filter: &[u8], place: usize) -> bool
    requires { place < length filter.now }
    ensures { result ≡ begins_level filter.now place }
{
    place == 0 || filter[place - 1] == b'/'
}

// Whether a level of a Topic Filter ends with the byte at this place.
fn ends_level(filter: &[u8], place: usize) -> bool
    requires { place < length filter.now }
    ensures { result ≡ ends_level filter.now place }
{
    place + 1 == filter.len() || filter[place + 1] == b'/'
}
