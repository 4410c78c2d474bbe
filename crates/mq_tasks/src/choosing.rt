//! The statements that the words choose.
ghost use Rattle.std.specs.Prelude.{◌≡◌, ℕ, List, Option, Ok, Err, IfErr, IfOk, IfSome, option_map, string_bytes};
ghost use Rattle.mq_host.specs.Streams.{misuse_line};
ghost use Rattle.mq_tasks.specs.Choosing.{choice_for, choice_read, chosen_as, further_of};
ghost use Rattle.mq_tasks.specs.Messages.{IsMisnamed};
ghost use Rattle.mq_choice.specs.Lists.{read_list};

use mq_choice::{Choice, Unchosen};
use mq_command::{Scope, Task};
use mq_host::Misuse;
use mq_rules::Further;

/// The statements that a list chooses, if there is one; else those that are asked for without one.
///
/// # Errors
///
/// `NoStatements` if a word of the list names none, `NoChoice` if it leaves none, and `TwoChoices`
/// if the further statements are asked for too.
pub fn choice_for(scope: Scope, statements: &Option<String>) -> Result<Choice, Misuse<'_>>
    ensures ok { IfOk result (λ choice. choice_for scope (option_map string_bytes statements.now) ≡ Ok (chosen_as choice)) }
    ensures err { IfErr result (λ why. choice_for scope (option_map string_bytes statements.now) ≡ Err (misuse_line why)) }
{
    match statements {
        None => Ok(Choice::by(further_of(scope))),
        Some(list) => {
            if scope.has_further() {
                Err(Misuse::TwoChoices)
            } else {
                choice_in(list.as_str())
            }
        }
    }
}

/// Why the words of a task choose no statements, if they don't.
pub fn misuse_of(task: &Task) -> Option<Misuse<'_>>
    ensures { IfSome result (λ why. (input : Option (List ℕ)) → IsMisnamed task.now input (misuse_line why)) }
{
    match task {
        Task::Check {
            scope,
            statements,
            ..
        } => match choice_for(*scope, statements) {
            Ok(_) => None,
            Err(misuse) => Some(misuse),
        },
        Task::Show { .. } => None,
        Task::Packet { .. } => None,
        Task::Rules { .. } => None,
        Task::Explain { .. } => None,
    }
}

/// The further statements that are asked for without a list.
pub fn further_of(scope: Scope) -> Further
    ensures { result ≡ further_of scope }
{
    match scope {
        Scope::Usual => Further::NONE,
        Scope::All => Further::ON_REQUEST,
        Scope::Timed => Further::WITH_TIMES,
    }
}

// The statements that a list chooses.
fn choice_in(list: &str) -> Result<Choice, Misuse<'_>>
    ensures ok { IfOk result (λ choice. choice_read (read_list list.now) ≡ Ok (chosen_as choice)) }
    ensures err { IfErr result (λ why. choice_read (read_list list.now) ≡ Err (misuse_line why)) }
{
    match Choice::read(list) {
        Ok(choice) => Ok(choice),
        Err(Unchosen::Unknown(word)) => Err(Misuse::NoStatements(word)),
        Err(Unchosen::Empty) => Err(Misuse::NoChoice),
    }
}
