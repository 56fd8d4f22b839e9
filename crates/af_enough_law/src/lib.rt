//! That the cycles that are enough for a script are enough: laws over runs.
#![tactic(auto)]

mod laws;

pub use laws::{
    a_cut_run_with_enough_cycles_is_long, enough_cycles_are_enough, enough_cycles_end_all,
    no_client_that_plays_through_pokes, what_was_learnt_of_a_block_is_seen,
    what_was_learnt_of_a_pipe_is_seen, what_was_learnt_of_a_queue_is_seen,
    what_was_learnt_of_a_report_is_seen,
};
