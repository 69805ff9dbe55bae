// Networks in the low latency mode (LLDN) of IEEE 802.15.4: a coordinator, its devices, and what holds of every run of them.
#![tactic(auto)]

mod guaranteed_coordinator;

pub use guaranteed_coordinator::coordinator_for;
