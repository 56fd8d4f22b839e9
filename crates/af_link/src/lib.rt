//! What links the two mixers and the clients: the pipe of mixed frames, the fast mixer's report, the blocks' names in the state queue, and the meetings of proxies.
#![tactic(auto)]

mod ends;
mod links;
mod meetings;
mod names;
mod putting;
mod reports;
mod taking;

pub use af_base::{Report, SlotReport};
pub use ends::{PipeIn, PipeOut, meet_pipe, pipe};
pub use links::Links;
pub use meetings::{meet_all, meet_flag, meet_track, recall};
pub use names::{StreamNames, stream_names};
pub use reports::{
    ReportCell, ReportReader, ReportWriter, first_report, meet_report, no_slot, report,
};
