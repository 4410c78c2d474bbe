//! How far judging is.

/// Is told, while a log is judged, how far that is.
pub trait Progress {
    ghost use Rattle.std.specs.Prelude.{List, ◌∷◌};
    ghost use Rattle.mq_judge.specs.Telling.{Said, advanced, ended};

    /// It was told this so far, the latest first.
    ghost told: { Self → List Said → Type 0 };

    /// So many more bytes of the log were judged, and so many faults are known by now.
    fn advance(&mut self, bytes: usize, faults: usize)
        ensures { (before : List Said) → told self.old before → told self.new (advanced bytes faults ∷ before) };

    /// No more of the log is judged, and the report is written next, if there is one.
    fn end(&mut self)
        ensures { (before : List Said) → told self.old before → told self.new (ended ∷ before) };
}

/// Nobody asks.
impl Progress for () {
    ghost use Rattle.std.specs.Prelude.{⊤};

    ghost told = { λ _ _. ⊤ };

    fn advance(&mut self, _bytes: usize, _faults: usize) {}

    fn end(&mut self) {}
}
