//! Octets as hexadecimal text: a line of a radio capture read as octets, two digits each, and octets shown.
#![tactic(auto)]

mod digit;
mod hex;
mod line;

pub use hex::Hex;
pub use line::{HexLine, NotOctets};
