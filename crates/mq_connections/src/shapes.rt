//! The statements on the bytes of one packet, judged as the events come.
ghost use Rattle.std.specs.Prelude.{◌≡◌, ◌&&◌, Some, None, OnOk, OnErr};
ghost use Rattle.mq_rules.specs.Statements.{is_on_bytes};
ghost use Rattle.mq_rules.specs.Steps.{turns};

use mq_log::Place3;
use mq_rules::{Bare, Brisk, Fault, FaultKey, Faults, Memory, Note, Rule, Tested, Watch};

/// Watches W01 to W21. Each is false exactly at an event whose bytes break it, so nothing is kept.
#[derive(Drop)]
pub struct Shapes;

impl Shapes {
    /// The watcher. These statements bind either end.
    pub fn new(_tested: Tested) -> Shapes {
        Shapes
    }
}

impl Watch for Shapes {
    ghost agrees = { λ s tested taken past. Unit {0} };

    ghost takes = { λ tested taken e past. Unit {0} };

    ghost adds = { λ tested e past k r. is_on_bytes tested r && turns tested e past k r };

    ghost weighs = { λ s. 0 };

    ghost bound = { λ tested taken past. 0 };

    #[inline(always)]
    fn step(&mut self, at: Place3, note: &Note, faults: &mut Faults) -> Result<(), Memory> {
        let Some(broken) = note.body_fault() else {
            return Ok(());
        };
        let key = FaultKey {
            position: at.position,
            rule: Rule::of(broken.rule),
        };
        faults.add(key, Fault::at_once(at, Some(broken.at)))?;
        Ok(())
    }

    fn weight(&self) -> usize {
        0
    }
}

impl Brisk for Shapes {
    #[inline(always)]
    fn step_bare(&mut self, _: Place3, _: Bare<'_>, _: &mut Faults) -> Result<(), Memory> {
        Ok(())
    }
}
