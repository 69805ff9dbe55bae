//! The console: carries out a script, one command a line, over slot plans, cargo, networks and whole halls.
#![tactic(auto)]

mod answers;
mod any_network;
mod any_plan;
mod bitmap_outcomes;
mod cargo_commands;
mod console;
mod hall_command;
mod named_device;
mod obstacle;
mod script_network;
mod timetable;

pub use answers::Answers;
pub use console::Console;
pub use obstacle::{Obstacle, Stop};
