//! What the words of a command line ask for: work on a log, on a packet or on the statements, or a
//! reason why there is nothing to do.
#![tactic(auto)]

mod command_line;
mod digits;
mod oddity;
mod operands;
mod scope;

pub use command_line::{
    Conversion, EarlyExit, Form, Inquiry, Review, Task, Work, parse, path_named,
};
pub use digits::{is_dash, packed};
pub use oddity::{Oddity, first_oddity};
pub use scope::Scope;
