//! The console's script: what each of its lines asks for, or why a line is not understood.
#![tactic(auto)]

mod cargo_kind;
mod given_cargo;
mod given_octets;
mod line_words;
mod misread;
mod network_order;
mod request;

pub use cargo_kind::CargoKind;
pub use given_cargo::GivenCargo;
pub use given_octets::GivenOctets;
pub use misread::{Misread, WrongWord};
pub use network_order::{CoordinatorOrder, DeviceOrder, FrameWord, NetworkMode, NetworkOrder};
pub use request::{CargoSource, HallRun, Request};
