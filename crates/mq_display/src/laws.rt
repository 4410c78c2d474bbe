//! Laws of what is shown, each proved as the contract of a function that does nothing.
ghost use Rattle.std.specs.Prelude.{◌≡◌, ◌<◌, ◌∷◌, [], ℕ, codes};
ghost use Rattle.mq_packet.specs.declared.rule.PacketRule.TheVariants.{W04, W05, W09, W14};
ghost use Rattle.mq_display.specs.Calendar.{IsDate, day_of_month, month_of, utc_text, year_of};
ghost use Rattle.mq_display.specs.Details.{broken_words};
ghost use Rattle.mq_display.specs.ItemText.{with_spaces};

/// Each day of the years 1970 to 2099 has the date that is found for it, and no other one.
pub fn dates_are_exact()
    ensures found { (day : ℕ) → day < 47482 → IsDate day (year_of day) (month_of day) (day_of_month day) }
    ensures alone { (day year month number : ℕ) → day < 47482 → IsDate day year month number → (year_of day ≡ year) × (month_of day ≡ month) × (day_of_month day ≡ number) }
{}

/// Some moments as times: the first one, around a leap day, and the last one before 2100.
#[tactic(auto, unfolding(crate::specs::Calendar::utc_text, crate::specs::Calendar::day_of_month, crate::specs::Calendar::month_of, crate::specs::Calendar::year_of, crate::specs::Calendar::days_of_year_before, crate::specs::Calendar::days_before_month, crate::specs::Calendar::days_before_year, crate::specs::Calendar::last_begun, crate::specs::Calendar::sum_of_first, crate::specs::Calendar::days_of_month, crate::specs::Calendar::days_of_year, crate::specs::Calendar::is_leap_year))]
pub fn worked_times()
    ensures first { utc_text 0 ≡ codes "1970-01-01 00:00:00.000000 UTC" }
    ensures leap_day { utc_text 951868799999999 ≡ codes "2000-02-29 23:59:59.999999 UTC" }
    ensures after_leap_day { utc_text 951868800000000 ≡ codes "2000-03-01 00:00:00.000000 UTC" }
    ensures afternoon { utc_text 1795712601123456 ≡ codes "2026-11-26 17:03:21.123456 UTC" }
    ensures last { utc_text 4102444799999999 ≡ codes "2099-12-31 23:59:59.999999 UTC" }
{}

/// What is written of bytes that break a rule as no packet does: at an offset beyond their end,
/// with no bytes, and rules on texts that keep them or aren't whole.
pub fn worked_broken_packets()
    ensures beyond_the_end { with_spaces (broken_words (64 ∷ 0 ∷ []) W09 7) ≡ codes " type PUBACK bytes 40 00 []" }
    ensures no_bytes { with_spaces (broken_words [] W09 0) ≡ codes " bytes []" }
    ensures no_wildcard { with_spaces (broken_words (48 ∷ 4 ∷ 0 ∷ 1 ∷ 97 ∷ 0 ∷ []) W14 2) ≡ codes " type PUBLISH bytes 30 04 [00] 01 61 00" }
    ensures no_zero { with_spaces (broken_words (48 ∷ 4 ∷ 0 ∷ 1 ∷ 97 ∷ 0 ∷ []) W04 2) ≡ codes " type PUBLISH bytes 30 04 [00] 01 61 00" }
    ensures too_long { with_spaces (broken_words (48 ∷ 4 ∷ 0 ∷ 5 ∷ 97 ∷ 0 ∷ []) W05 2) ≡ codes " type PUBLISH bytes 30 04 [00] 05 61 00" }
    ensures half_a_length { with_spaces (broken_words (48 ∷ 1 ∷ 0 ∷ []) W05 2) ≡ codes " type PUBLISH bytes 30 01 [00]" }
{}
