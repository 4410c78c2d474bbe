//! Watchers of the statements on subscriptions: B01 to B09, P01, P02, R01 and R02.
#![tactic(auto)]

mod awaited;
mod counts;
mod deletions;
mod filters;
mod grants;
mod matching;
mod requested;
mod subs;
mod subs_all;
mod subscribed;
mod topics;

pub use counts::{Counted, Counts, Replies, Subacks, Unsubacks};
pub use deletions::{DeletionPlaces, Deletions};
pub use grants::Grants;
pub use subs::{Deliveries, DeliveryPlaces, asks_for_shared};
pub use subs_all::Subs;
