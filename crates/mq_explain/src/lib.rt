//! What is said of the statements themselves: the list of them, and the text that explains each.
#![tactic(auto)]

mod citations;
mod explanations;
mod listing;

pub use citations::explanations_cited;
pub use explanations::{each_explanation_begins_with_its_code, explanation};
pub use listing::{add_all_codes, role_named, statement_list};
