//! Frames of the low latency mode (LLDN) of IEEE 802.15.4: read from received octets, and written into a lent buffer.
#![tactic(auto)]

mod acknowledgment;
mod beacon;
mod buffer;
mod command;
mod control;
mod data_frame;
mod direction;
mod extent;
mod faults;
mod frames;
mod management_width;
mod part;

pub use acknowledgment::{Acknowledged, write_acknowledgment};
pub use beacon::{
    BeaconHeader, BeaconState, ManagementState, write_management_beacon, write_online_beacon,
    write_reset_beacon,
};
pub use buffer::put;
pub use command::{Command, Configuration, Wish, write_command};
pub use data_frame::write_data;
pub use direction::Direction;
pub use faults::{Fault, Layer, Refusal};
pub use frames::{Frame, read};
pub use management_width::{ManagementWidth, TooWide};
pub use part::Part;
