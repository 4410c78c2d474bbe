//! What isn't judged, as events show it one by one.
ghost use Rattle.std.specs.Prelude.{◌≡◌, ◌++◌, [], List, OnOk};
ghost use Rattle.mq_report.specs.declared.report.unjudged.Gap.{Gap as TheGap};
ghost use Rattle.mq_judge.specs.Unjudged.{with_last};
ghost use Rattle.mq_judge.specs.Gathering.{IsShown};

use mq_report::Gap;
use mq_rules::Memory;
use std::alloc::Global;

/// What events show one by one, in their order.
#[derive(Drop)]
pub struct Shown {
    gaps: Vec<Gap>,
    /// Whether there was no memory for all of it.
    is_lacking: bool,
}

impl Shown {
    /// Before any event.
    pub fn new(alloc: Global) -> Self
        ensures { IsShown result [] }
    {
        Shown {
            gaps: Vec::new(alloc),
            is_lacking: false,
        }
    }

    /// Keeps what an event shows, if it shows something.
    pub fn keep(&mut self, gap: Option<Gap>)
        ensures { (gaps : List TheGap) → IsShown self.old gaps → IsShown self.new (with_last gaps gap) }
    {
        let Some(gap) = gap else {
            return;
        };
        match self.gaps.push(gap) {
            Ok(()) => {}
            Err(_) => self.is_lacking = true,
        }
    }

    /// Adds all of it to these gaps.
    ///
    /// # Errors
    ///
    /// `Memory` if there is no memory for it, or there was none when an event showed it.
    pub fn add_to(&self, gaps: &mut Vec<Gap>) -> Result<(), Memory>
        ensures { (shown : List TheGap) → IsShown self.now shown → OnOk result (gaps.new.items ≡ gaps.old.items ++ shown) }
    {
        if self.is_lacking {
            return Err(Memory);
        }
        gaps.extend_from_slice(self.gaps.as_slice())?;
        Ok(())
    }
}

/// Adds a gap, if there is one.
///
/// # Errors
///
/// `Memory` if there is no memory for it.
pub fn add(gaps: &mut Vec<Gap>, gap: Option<Gap>) -> Result<(), Memory>
    ensures { OnOk result (gaps.new.items ≡ with_last gaps.old.items gap) }
{
    if let Some(gap) = gap {
        gaps.push(gap)?;
    }
    Ok(())
}
