//! The faults that are to be explained: what they need, and where the next one is.
ghost use Rattle.std.specs.Prelude.{◌≡◌};
ghost use Rattle.mq_evidence.specs.Trailing.{IsNext, any_needs as any_of, needs as of_need};

use mq_rules::{Faults, Rule};

/// What is kept only if the evidence of a fault needs it.
#[derive(Clone, Copy)]
pub enum Need {
    /// The Topic Filters that stand, or wait for their SUBACK.
    Standing,
    /// The Topic Filters that were asked for.
    Asked,
}

// Whether the evidence of a statement needs this.
fn needs(need: Need, rule: Rule) -> bool
    ensures { result ≡ of_need need rule }
{
    match need {
        Need::Standing => matches!(rule, Rule::B01 | Rule::B02),
        Need::Asked => matches!(
            rule,
            Rule::B09 | Rule::P01 | Rule::P02 | Rule::R01 | Rule::R02
        ),
    }
}

/// Whether the evidence of one of these faults needs this.
pub fn any_needs(need: Need, wanted: &Faults) -> bool
    ensures { result ≡ any_of need wanted.now }
{
    for (key, _) in wanted.iter() {
        if needs(need, key.rule) {
            return true;
        }
    }
    false
}

/// The position of the first of these faults that is after this position; if there is none, the
/// greatest position that there can be.
pub fn next_after(wanted: &Faults, position: u32) -> u32
    ensures { IsNext wanted.now result position }
{
    match wanted.first_from(position.saturating_add(1)) {
        Some(next) => next,
        None => u32::MAX,
    }
}
