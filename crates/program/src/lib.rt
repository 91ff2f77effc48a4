//! The program over any streams: its subcommands, chosen by the words of the command line, and its exit statuses.
//! `abft deliver` delivers the frames of a stream to a replica, and `abft simulate` plays a scenario text on a whole
//! cluster. Both write lines about what happened. `abft audit` reads histories and writes whether they have one ledger, `abft draw` writes a picture of
//! their run, and `abft keys` the public file of a cluster. The caller of [`run`] chooses the application of the replicas, as a type.
#![tactic(auto)]

mod auditing;
mod delivering;
mod drawing;
mod frame_stream;
mod history_input;
pub mod laws;
mod line;
mod line_printing;
mod opening;
mod outcome;
mod playing;
mod publishing;
mod reading;
mod replica;
mod running;
mod scenario_input;
mod signing;
mod simulating;
mod statement;
mod status;
mod stream_end;
mod text_end;

pub use auditing::audit;
pub use delivering::deliver;
pub use drawing::draw;
pub use outcome::{Conclusion, Outcome};
pub use publishing::publish;
pub use running::{finish, refuse_words, run};
pub use signing::signed_frame;
pub use simulating::simulate;
pub use status::BAD_USAGE;
pub use stream_end::{StreamEnd, StreamFault};
pub use text_end::TextEnd;
