//! What the program meets: files and the standard streams, what may fail there, and what is said of
//! it. No log is read here.
#![tactic(auto)]

mod beginning;
mod error_stream;
mod failure;
mod host;
mod misuse;
mod new_file;
mod noting;
mod output;
mod reading;
mod trouble;
mod writing;

pub use beginning::{give_hint, read_start};
pub use error_stream::ErrorStream;
pub use failure::{FAILED, FAULTY, Failure, MISUSED, Obstacle, PASSED, REFUSED};
pub use host::{Host, Identity, STANDARD_INPUT, System, Unmade};
pub use misuse::Misuse;
pub use new_file::NewFile;
pub use noting::Noting;
pub use output::{Outlet, Output};
pub use reading::{MOST_TEXT, NoText, read_text};
pub use trouble::{Reason, Trouble};
pub use writing::{flush, write_out};
