//! What a judge keeps of the parties of a run, and whether what a journal tells of them is right: clients and blocks, the normal mixer, the fast mixer with its queue, its pipe and its report.
#![tactic(auto)]

mod block_judge;
mod buffer_mix;
mod client_judge;
mod due_looks;
mod entry_judge;
mod fast_judge;
mod frame_words;
mod front;
mod lists_judge;
mod look;
mod mixer_setup;
mod normal_judge;
mod normal_tells;
mod parties_judge;
mod pipe_judge;
mod pushes;
mod queue_judge;
mod report_judge;
mod server_judge;
mod side_judge;
mod slot_report;
mod takes_due;
mod track_judge;
mod turn_judge;
mod words_judge;

pub use fast_judge::{Entries, FastJudge, is_fast_turn};
pub use normal_judge::NormalJudge;
pub use report_judge::ReportJudge;
pub use track_judge::TrackJudge;
