//! A log of version 1 and the same in version 2: a law of the definitions, proved as the contract
//! of a function that does nothing.
ghost use Rattle.std.specs.Prelude.{◌≡◌, ℕ, List, None, false, slice_index};
ghost use Rattle.mq_log.specs.Events.{events};
ghost use Rattle.mq_log.specs.Framing.{header_by};
ghost use Rattle.mq_log.specs.Refusals.{refused, is_cut_short};
ghost use Rattle.mq_trace.specs.Converting.{converted};

/// A log of version 1 that isn't refused, and isn't cut short, is neither once it is converted. It
/// has the same header then, but for its version, and the same events.
pub fn converted_logs_have_the_same_events()
    ensures { (limit : ℕ) (log : List ℕ) → slice_index log 4 ≡ 1 → refused limit log ≡ None → is_cut_short log ≡ false → (refused limit (converted log) ≡ None) × (is_cut_short (converted log) ≡ false) × (header_by (converted log) ≡ record (header_by log) { version = 2 }) × (events (converted log) ≡ events log) }
{}
