// The coordinator of a network in the low latency mode (LLDN) of IEEE 802.15.4.
#![tactic(auto)]

mod beacons;
mod coordinator;
mod heard;
mod listening;
mod management;
mod mode;
mod open_superframe;
mod record;
mod state;

pub use coordinator::Coordinator;
pub use heard::Heard;
pub use mode::Mode;
pub use open_superframe::{OpenSuperframe, Opened};
pub use record::Record;
