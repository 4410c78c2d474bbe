//! Watchers of the statements on one packet and on its connection: W01 to W21, C01 to C23, and
//! those on request, F01 to F06, V03, V04, V06, A01 to A03, C24, D01 to D03, D05, K01 and K02. Each
//! event is taken in once.
//!
//! `Shapes` (W), `Conn` (C01 to C23), `Manners` and `Duties` (on request) and `Clocks` (on times)
//! find the faults. The places of their statements are counted by `ByteTally`, `CountingConn`,
//! `CountingManners`, `CountingDuties` and `CountingClocks`.
#![tactic(auto)]

mod byte_tally;
mod clocks;
mod conn;
mod duties;
mod manners;
mod one_pass;
mod plain;
mod shapes;

pub use byte_tally::ByteTally;
pub use clocks::{Clocks, CountingClocks};
pub use conn::{Conn, CountingConn};
pub use duties::{CountingDuties, Duties};
pub use manners::{CountingManners, Manners};
pub use one_pass::plain_connections;
pub use plain::{plain_c, plain_w};
pub use shapes::Shapes;
