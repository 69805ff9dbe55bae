//! What a host keeps beside each end: a coordinator with its open superframe, and a device with the counts of its cargo's fates.
//! All calls that the console makes at the two ends go through here.
#![tactic(auto)]

mod coordinator_host;
mod device_host;
mod fate_counts;
mod lent_memory;

pub use coordinator_host::{Begun, CoordinatorHost};
pub use device_host::DeviceHost;
pub use lent_memory::{SPACE, first};
