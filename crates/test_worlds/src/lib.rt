//! Tests of worlds whose files stop and whose memory is refused, and of what no session can show.
//! There is nothing here but tests.
#![tactic(auto)]

#[cfg(test)]
mod allocation_tests;
#[cfg(test)]
mod crashes;
#[cfg(test)]
mod fitting;
#[cfg(test)]
mod fuses;
#[cfg(test)]
mod limits_tests;
#[cfg(test)]
mod loans;
#[cfg(test)]
mod parcel_tests;
#[cfg(test)]
mod pictures;
#[cfg(test)]
mod scenes;
#[cfg(test)]
mod stop_tests;
#[cfg(test)]
mod stops;
#[cfg(test)]
mod told;
#[cfg(test)]
mod worlds;
