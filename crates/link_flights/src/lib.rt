//! The frames at the ends of repositories' connections are the flights of the sequential driver: laws that tie the two.
#![tactic(auto)]

mod laws;

pub use laws::{
    dropped_ends_keep_their_flights, ends_begin_without_flights, ends_in_flight_are_carried,
    entries_fly_over_connections, heard_words_are_told, looks_see_the_flights, steps_are_posted,
    steps_send_in_order, turns_keep_all_ends, words_stay_with_frames,
};
