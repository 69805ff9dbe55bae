//! Whole runs of a network that carries readings, over a radio that loses frames.
#![tactic(auto)]

mod hall;
mod lossy_radio;
mod station;

pub use hall::Hall;
pub use station::Station;
