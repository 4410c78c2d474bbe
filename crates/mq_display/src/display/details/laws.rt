//! Laws of what `show --long` prints, each proved as the contract of a function that does nothing.
ghost use Rattle.std.specs.Prelude.{◌≡◌, true};
ghost use Rattle.mq_log.specs.Events.{Event};
ghost use Rattle.mq_display.specs.Details.{broken_detail_text, detail_text};
ghost use Rattle.mq_report.specs.OneLine.{is_on_one_line};

/// Whatever a packet holds, its details stay on their line: no text is printed with a line feed or
/// any other byte below a space.
#[tactic(auto, using(crate::proofs::OneLineLaws::details_fit, crate::proofs::OneLineLaws::broken_details_fit))]
pub fn details_stay_on_one_line()
    ensures all { (event : Event) → is_on_one_line (detail_text event) ≡ true }
    ensures broken { (event : Event) → is_on_one_line (broken_detail_text event) ≡ true }
{}
