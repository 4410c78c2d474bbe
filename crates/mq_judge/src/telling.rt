//! A judge that tells how far it is.
ghost use Rattle.std.specs.Prelude.{◌≡◌};

use super::judge::Judge;
use super::progress::Progress;
use mq_log::Refusal;
use mq_trace::Feed;
use std::marker::{Brand, PhantomData};

/// What had been told before, whether places are counted, and which further statements are judged
/// too. Each call of `judge_telling` or of `cover_telling` picks it.
pub trait Before {
    ghost use Rattle.std.specs.Prelude.{Bool};
    ghost use Rattle.mq_rules.specs.declared.role.Further.{Further};
    ghost use Rattle.mq_judge.specs.Telling.{SaidSoFar};

    ghost told: { SaidSoFar };

    // Whether the judge counts places.
    ghost counting: { Bool };

    // Which further statements it judges too.
    ghost further: { Further };
}

impl Before for Brand {
    ghost use Rattle.std.specs.Prelude.{⊤, false};
    ghost use Rattle.mq_rules.specs.Rules.{none_further};

    ghost told = { λ _. ⊤ };

    ghost counting = { false };

    ghost further = { none_further };
}

/// A judge that tells after each piece of its log how far it is.
///
/// No code uses `K`. It is there for the proofs: by it `follows` can say what had been told before
/// the first piece.
#[derive(Drop)]
pub struct Telling<K> {
    judge: Judge,
    of: PhantomData<K>,
}

impl<K> Telling<K> {
    /// Tells of this judge.
    pub fn new(judge: Judge) -> Self
        ensures { result.judge ≡ judge }
    {
        Telling {
            judge,
            of: PhantomData,
        }
    }

    /// The judge, which tells no more.
    pub fn into_judge(self) -> Judge
        ensures { result ≡ self.judge }
    {
        let Telling { judge, of: _ } = self;
        judge
    }
}

impl<P: Progress, K: Before> Feed<P, Refusal> for Telling<K> {
    ghost use Rattle.std.specs.Prelude.{◌*◌};
    ghost use Rattle.std.specs.Prelude.{◌≡◌};
    ghost use Rattle.mq_judge.specs.Judging.{is_counting, Follows, RefusesIn};
    ghost use Rattle.mq_judge.specs.Telling.{IsTold};

    ghost limit = { λ telling. telling.judge.limit };

    ghost follows = { λ telling progress log. Follows telling.judge log × IsTold K.further K.told (P.told progress) log × (is_counting telling.judge ≡ K.counting) × (telling.judge.further ≡ K.further) };

    ghost stops = { λ limit telling progress log piece refusal. RefusesIn limit telling.judge log piece refusal × IsTold K.further K.told (P.told progress) log };

    fn feed(&mut self, progress: &mut P, piece: &[u8]) -> Result<(), Refusal> {
        match self.judge.feed(piece) {
            Ok(()) => {
                let faults = self.judge.known().len();
                progress.advance(piece.len(), faults);
                Ok(())
            }
            Err(refusal) => Err(refusal),
        }
    }
}
