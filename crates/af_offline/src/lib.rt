//! What the commands do with files alone, when no session is played: scripts and the files of their tracks are loaded, a file is recorded or looped, a sound and its journal are judged, the files of a generated session are drawn, and each end has its status and its line.
#![tactic(auto)]

mod capture;
mod generating;
mod lines;
mod load;
mod looping;
mod outputs;
mod status;
mod verifying;

pub use capture::record_output;
pub use generating::write_session;
pub use load::{Loaded, load_files, load_script};
pub use looping::loop_output;
pub use outputs::{Output, deliver, write_file};
pub use status::{Ending, FileFault, Refusal, Role, Status, Stop, Why};
pub use verifying::{Case, judge, load_case};
