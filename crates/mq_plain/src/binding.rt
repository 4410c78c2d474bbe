//! Binding RESTs: after the accepting CONNACK, with nothing before them that ends binding.
ghost use Rattle.std.specs.Prelude.{◌≡◌, reverse};
ghost use Rattle.mq_rules.specs.Moments.{newest, some};
ghost use Rattle.mq_rules.specs.Connections.{connection, ends_binding, is_binding};

use crate::connection::{latest_fate_of, some_on_connection};
use crate::lookback::NoteTest;
use crate::session::is_accepted;
use mq_rules::{ItemNote, Note, Role, Seen};

/// What ends binding: a DISCONNECT of either end, or bytes of either end that break a rule.
#[derive(Drop)]
struct EndsBinding;

impl NoteTest for EndsBinding {
    ghost use Rattle.mq_plain.specs.Lookback.{ends_binding_by};

    ghost test = { λ t n. ends_binding_by n };

    fn passes(&self, note: &Note) -> bool {
        match note {
            Note::Sent(ItemNote::Packet(packet)) | Note::Recv(ItemNote::Packet(packet)) => {
                packet.fields.disconnect().is_some()
            }
            Note::Sent(_) | Note::Recv(_) => true,
            _ => false,
        }
    }
}

/// Whether an event, which has these events before it, is a REST that binds.
#[tactic(auto, unfolding(mq_rules::specs::Connections::is_binding))]
pub fn is_binding_rest(role: Role, event: &Seen, before: &[Seen]) -> bool
    ensures { result ≡ is_binding role (newest event.now (reverse before.now)) }
{
    event.note.is_rest() && is_accepted(latest_fate_of(role, before)) && !has_ended_binding(before)
}

// Whether some event of the latest connection ends binding.
fn has_ended_binding(before: &[Seen]) -> bool
    ensures { result ≡ some ends_binding (connection (reverse before.now)) }
{
    some_on_connection(&EndsBinding, before)
}
