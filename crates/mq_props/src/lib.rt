//! Property lists (MQTT 5.0, 2.2.2).
#![tactic(auto)]

mod buf;
mod facts;
mod fault;
mod get;
mod having;
mod laws;
mod list;
mod prop;
mod props;
mod seen;
mod table;
mod usual;
mod value;

pub use buf::PropsBuf;
pub use fault::{PropFault, PropReason, PushFault};
pub use laws::{properties_are_exact, property_faults_are_exact};
pub use prop::Prop;
pub use props::{Props, PropsIter, after_empty_list};
pub use table::Place;
