//! Laws of the definitions of `mq_rules`, each proved as the contract of a function that does
//! nothing. They say in other words what these mean, for those who read them. No proof of the judge
//! needs them, so nothing waits for this crate.
#![tactic(auto)]

mod laws;
mod occasion_laws;
mod position_laws;
mod session_laws;
mod statement_laws;
mod trial_laws;

pub use laws::{
    decided_is_shortest, entries_are_listed, failing_is_decided, failing_stays, failing_turns,
    fated_failing_turns, faults_grow, given_fate_is_decided, late_is_judged_at_once,
    latest_fate_goes_on, listed_is_failing, open_decides_nothing, past_is_judged_at_once,
    session_packets_are_late, sessions_are_judged_at_once,
};
pub use occasion_laws::{
    applying_stays, applying_turns, failing_applies, places_by_one, places_grow, places_of_faults,
    places_under_a_fate, rests_put_to_the_test,
};
pub use position_laws::{
    earliest_since_by_positions, first_found_by_positions, latest_by_positions,
    moments_by_positions, scopes_descend, since_by_positions, some_stretch_by_positions,
    tests_by_positions,
};
pub use session_laws::{
    alive_by_connections, connection_goes_on, event_decides_its_connection, fate_stays,
    fold_goes_on, session_by_positions, since_goes_on, unrefused_logs_are_orderly, words_are_folds,
};
pub use statement_laws::{first_open_rest_decides, first_rest_decides, in_flight_by_a_counter};
pub use trial_laws::{failing_bytes_apply, places_bytes_grow};
