//! A picture of a run: the frames that replicas send, where these arrive, and what the replicas do at each height; and the same as SVG, one
//! group with a title for each element, in a fixed order.
//!
//! Each history is followed as an audit follows it, and shown as far as it is a replay.
#![tactic(auto)]

mod arrows;
mod axes;
mod deciding;
mod deliveries;
mod document;
mod entry_facts;
mod following;
mod frame_numbers;
mod frame_reading;
mod history_break;
mod incoming;
mod layout;
mod locks_held;
mod marks;
mod part;
mod picture;
mod retiring;
mod sent_frames;
mod shapes;
mod sources;
mod words;
mod xml;

pub use deliveries::Delivery;
pub use document::svg_of;
pub use entry_facts::{Fact, Mark};
pub use history_break::HistoryBreak;
pub use part::{Moment, Part};
pub use picture::{Picture, picture_of};
pub use sent_frames::SentFrame;
pub use sources::Arrival;
