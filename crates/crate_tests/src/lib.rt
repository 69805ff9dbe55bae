//! Tests of crates by their public calls: outside vectors, printed text, sizes, and that each call can succeed. In their own crates they would have these proved twice.
#![tactic(auto)]

#[cfg(test)]
mod cargo_tests;
#[cfg(test)]
mod console_tests;
#[cfg(test)]
mod coordinator_tests;
#[cfg(test)]
mod device_tests;
#[cfg(test)]
mod hexadecimal_tests;
#[cfg(test)]
mod plan_tests;
#[cfg(test)]
mod repeats_tests;
