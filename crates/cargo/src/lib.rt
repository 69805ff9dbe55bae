//! Cargo: what a host hands over and gets back unaltered through the network, by kinds that each have an image in octets.
#![tactic(auto)]

mod data_frames;
mod kind_of_cargo;
mod panel;
mod reading;
mod round_trip;

pub use data_frames::receive;
pub use kind_of_cargo::Cargo;
pub use panel::Panel;
pub use reading::Reading;
pub use round_trip::write_and_read;
