//! Watchers of what is received and answered, and released: E1A to E7R, and L1 to L3.
#![tactic(auto)]

mod asked;
mod debts;
mod exchange;
mod messages;
mod ordering;
mod owed;
mod pings;
mod releases;
mod requests;

pub use asked::Asked;
pub use debts::Debts;
pub use exchange::{E1, E2, E3, E4, E5, E6, Exchange};
pub use messages::Messages;
pub use owed::{Owed, OwedPlaces};
pub use pings::Pings;
pub use releases::{ReleasePlaces, Releases};
pub use requests::Requests;
