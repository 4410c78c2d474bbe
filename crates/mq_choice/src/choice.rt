//! The statements that are chosen.
ghost use Rattle.std.specs.Prelude.{◌≡◌, false};
ghost use Rattle.mq_choice.specs.Choices.{ReadsAs, in_choice, is_listed, unlisted, wants_further};

use crate::list::{
    Unchosen, flags_of, has_any, has_any_on_request, has_any_on_times, is_flagged, unknown_in,
};
use mq_rules::{Further, Rule};

/// The statements whose faults are reported.
#[derive(Clone, Copy, Debug)]
pub enum Choice {
    /// Those that are judged without a choice: all but the further ones.
    Usual,
    /// All but those on times, the further ones too.
    All,
    /// All, those on times too.
    Timed,
    /// Those that are flagged, by their numbers in the order of reports, counted from 0: there are
    /// fewer statements than flags.
    Listed([bool; 128]),
}

impl Choice {
    /// Reads a list of statements: words with a comma between two, from left to right. A word names
    /// a statement by its code, a family by the letter that its codes begin with, `default`,
    /// `all` or `times`. It adds these statements, or after a hyphen takes them away. A list that
    /// begins with a hyphen takes them from `default`.
    ///
    /// # Errors
    ///
    /// `Unknown` if a word names nothing; `Empty` if no statement is left.
    #[tactic(auto, using(crate::proofs::ReadLaws::reads_some, crate::proofs::ReadLaws::reads_none, crate::proofs::ReadLaws::reads_unknown))]
    pub fn read(list: &str) -> Result<Choice, Unchosen<'_>>
        ensures { ReadsAs list.now result }
    {
        if let Some(word) = unknown_in(list) {
            return Err(Unchosen::Unknown(word));
        }
        let flags = flags_of(list);
        if !has_any(&flags) {
            return Err(Unchosen::Empty);
        }
        Ok(Choice::Listed(flags))
    }

    /// The statements that are judged without a list: those on times are asked for beside all
    /// others.
    #[tactic(auto, using(crate::proofs::ChosenLaws::by_times, crate::proofs::ChosenLaws::by_request, crate::proofs::ChosenLaws::by_none))]
    pub fn by(further: Further) -> Choice
        ensures chosen { in_choice result ≡ unlisted further }
        ensures unlisted { is_listed result ≡ false }
    {
        if further.with_times {
            Choice::Timed
        } else if further.on_request {
            Choice::All
        } else {
            Choice::Usual
        }
    }

    /// Whether a statement is chosen.
    #[tactic(auto, using(crate::proofs::ChosenLaws::in_usual, crate::proofs::ChosenLaws::in_all, crate::proofs::ChosenLaws::in_timed))]
    pub fn has(self, rule: Rule) -> bool
        ensures { result ≡ in_choice self rule }
    {
        match self {
            Choice::Usual => !rule.is_further(),
            Choice::All => !rule.is_on_times(),
            Choice::Timed => true,
            Choice::Listed(flags) => is_flagged(&flags, rule),
        }
    }

    /// Which further statements are judged too: those that need no times if one of them is chosen,
    /// and those on times if one of them is.
    #[tactic(auto, unfolding(crate::specs::Choices::wants_further), using(crate::proofs::ChosenLaws::wants_usual, crate::proofs::ChosenLaws::wants_all, crate::proofs::ChosenLaws::wants_timed))]
    pub fn further(self) -> Further
        ensures { result ≡ wants_further (in_choice self) }
    {
        match self {
            Choice::Usual => Further::NONE,
            Choice::All => Further::ON_REQUEST,
            Choice::Timed => Further::WITH_TIMES,
            Choice::Listed(flags) => Further {
                on_request: has_any_on_request(&flags),
                with_times: has_any_on_times(&flags),
            },
        }
    }

    /// Whether it is a list, so that statements may be judged that aren't chosen.
    pub fn is_listed(self) -> bool
        ensures { result ≡ is_listed self }
    {
        matches!(self, Choice::Listed(_))
    }
}
