// A device of a network in the low latency mode (LLDN) of IEEE 802.15.4.
#![tactic(auto)]

mod beacon;
mod device;
mod fate;
mod following;
mod management;
mod member;
mod news;
mod phase;
mod repeat;
mod sending;

pub use device::Device;
pub use fate::Fate;
pub use phase::Phase;
