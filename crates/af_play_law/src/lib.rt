//! That the journal of a play is a legal run: what holds of a round in which all parties act at the same time, by the meeting at its end, and of all rounds of a play.
#![tactic(auto)]

mod in_time;
mod laws;

pub use in_time::a_play_with_enough_cycles_ends;
pub use laws::{
    a_load_shows_the_report_of_its_number, a_play_is_told_by_its_journal,
    a_poll_finds_one_of_two_states, a_round_of_all_parties_is_told,
    the_ends_of_a_play_keep_its_lists, the_rounds_of_a_play_are_told,
    what_was_polled_before_a_push_stands_before_it,
};
