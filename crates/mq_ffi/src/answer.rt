//! What a call answers.
ghost use Rattle.std.specs.Prelude.{◌≡◌};
ghost use Rattle.mq_ffi.specs.Answers.{answer_code};

/// Why a call did nothing, or what is wrong with the log.
#[derive(Clone, Copy, Debug, PartialEq, Eq)]
pub enum Trouble {
    /// The handle holds no judge: none was made, or it was freed.
    NoJudge,
    /// The handle holds a judge already.
    Held,
    /// An argument has a value that isn't allowed.
    Value,
    /// There was no memory. Nothing was taken in.
    Memory,
    /// The log is refused, by this call or an earlier one.
    Refused,
    /// The call may not come here: bytes of a log and events are mixed, events come before `begin`,
    /// or the log has ended.
    Order,
    /// There is no such fault, statement or refusal.
    Absent,
    /// The buffer is too short for the text.
    Room,
}

/// The number of an answer, as the header names it.
pub fn code_of(answer: Result<(), Trouble>) -> u32
    ensures { result ≡ answer_code answer }
{
    match answer {
        Ok(()) => 0,
        Err(Trouble::NoJudge) => 2,
        Err(Trouble::Held) => 3,
        Err(Trouble::Value) => 4,
        Err(Trouble::Memory) => 5,
        Err(Trouble::Refused) => 6,
        Err(Trouble::Order) => 7,
        Err(Trouble::Absent) => 9,
        Err(Trouble::Room) => 10,
    }
}
