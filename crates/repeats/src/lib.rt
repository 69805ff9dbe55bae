//! Group acknowledgments and retransmissions of the low latency mode (LLDN) of IEEE 802.15.4: which device repeats in which timeslot.
#![tactic(auto)]

mod bitmap;
mod group_acknowledgment;
mod senders;
mod timeslots;

pub use bitmap::{Bitmap, marked, no_bits};
pub use group_acknowledgment::GroupAcknowledgment;
pub use senders::{repeater, sender};
pub use timeslots::is_for_retransmission;
