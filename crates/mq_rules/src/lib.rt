//! The chosen statements of MQTT 5.0: what they look at in a log's events, where each is false, and
//! the faults that follow. `Watch` says what a watcher of statements does; the watchers are in the
//! crates above.
//!
//! To learn what the statements say, read the definitions in `specs/` alone: `Notes` (one event),
//! `Moments` (words on what comes before an event), `Connections`, and then a file for each family:
//! `Pasts`, `Identifiers`, `Exchanges`, `Releases` and `Subscriptions`, and those of further ones,
//! `FurtherPasts`, `FurtherRests`, `FurtherSubscriptions` and `KeepAlive`; `Statements` has a line
//! for each statement, and `Faults` says what is reported.
#![tactic(auto)]

mod bare;
mod by_identifier;
mod connection_state;
mod conversion;
mod copying;
mod evidence;
mod fate;
mod fault;
mod faults;
mod history;
mod identifier_list;
mod keep_alive;
mod lists;
mod method;
mod naming;
mod note;
mod note_copy;
mod note_ref;
mod noted;
mod packet_note;
mod parts;
mod places;
mod qos;
mod role;
mod rule;
mod short_text;
mod table;
mod table_laws;
mod text;
mod watch;
mod wishes;

pub use bare::{Bare, BareFields, is_bare};
pub use by_identifier::{ByIdentifier, CountedByIdentifier};
pub use connection_state::{ConnectionState, is_ordinary};
pub use evidence::{Evidence, Numbers};
pub use fate::Fate;
pub use fault::Fault;
pub use faults::{FaultKey, Faults, Memory};
pub use history::History;
pub use identifier_list::IdentifierList;
pub use keep_alive::{client_limit, is_large, server_limit};
pub use lists::{CodeList, FilterList};
pub use method::Method;
pub use naming::each_statement_is_named;
pub use note::{ItemNote, Note, Seen};
pub use note_ref::NoteRef;
pub use noted::Noted;
pub use packet_note::{
    ConnackNote, ConnectNote, DisconnectNote, PacketFields, PacketNote, PublishNote, WillNote,
    WishesNote,
};
pub use parts::{Parts, is_at_most_once};
pub use places::places_after;
pub use qos::qos_number;
pub use role::{Further, Role, Tested};
pub use rule::Rule;
pub use table_laws::{each_statement_binds_its_ends, each_statement_has_its_row, rows_ascend};
pub use text::{NotedFilter, Text};
pub use watch::{Both, Brisk, Watch, step_apart};
pub use wishes::{is_share, shared_filter};
