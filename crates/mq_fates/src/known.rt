//! Faults that are decided at another position.
ghost use Rattle.std.specs.Prelude.{◌≡◌, ◌&&◌, None, OnOk, OnErr};
ghost use Rattle.mq_fates.specs.Knowing as knowing;
ghost use Rattle.mq_fates.specs.Judgements.{judged_by};

use mq_log::Place3;
use mq_rules::{Fate, Fault, FaultKey, Faults, Memory, Rule};

/// Adds the fault of a statement that is broken at this place.
pub fn judge_by(
    rule: Rule,
    broken: bool,
    place: Place3,
    decided: u32,
    faults: &mut Faults,
) -> Result<(), Memory>
    ensures ok { OnOk result (faults.new ≡ judged_by broken rule place decided faults.old) }
    ensures unchanged { OnErr result (faults.new ≡ faults.old) }
{
    if !broken {
        return Ok(());
    }
    let key = FaultKey {
        position: place.position,
        rule,
    };
    let fault = Fault {
        decided,
        record_no: place.record_no,
        offset: None,
    };
    faults.add(key, fault)?;
    Ok(())
}

/// Whether a statement is broken by an event, unless that isn't known and may surprise the end.
pub fn excuse(surprising: bool, known: bool, broken: bool) -> bool
    ensures { result ≡ knowing.excused surprising known broken }
{
    broken && !(surprising && !known)
}

/// Whether it is known, at a RELEASE, to which session the message belongs.
pub fn is_placed(fate: Fate, known: bool) -> bool
    ensures { result ≡ knowing.is_placed fate known }
{
    !fate.is_untold() && !(fate.begins() && !known)
}

/// Whether a statement is broken by a RELEASE whose session is known.
pub fn place(placed: bool, broken: bool) -> bool
    ensures { result ≡ (broken && placed) }
{
    broken && placed
}
