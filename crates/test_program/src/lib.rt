//! Tests of what stands over `world` and no session can show: streams that fail, or take a text in pieces, connections
//! over memory and the loopback address, and what standard error is told. There is nothing here but tests.
#![tactic(auto)]

#[cfg(test)]
mod desk_tests;
#[cfg(test)]
mod ending_tests;
#[cfg(test)]
mod endings;
#[cfg(test)]
mod help_tests;
#[cfg(test)]
mod import_tests;
#[cfg(test)]
mod large_tests;
#[cfg(test)]
mod line_tests;
#[cfg(test)]
mod look_tests;
#[cfg(test)]
mod loopback_tests;
#[cfg(test)]
mod outputs;
#[cfg(test)]
mod progress_tests;
#[cfg(test)]
mod rehearsal_tests;
#[cfg(test)]
mod room_tests;
#[cfg(test)]
mod sending_tests;
#[cfg(test)]
mod streams;
#[cfg(test)]
mod texts;
#[cfg(test)]
mod worlds;
