//! Tests of worlds that stop in a split or a merge, and are opened again, and nothing else.
#![tactic(auto)]

#[cfg(test)]
mod asking;
#[cfg(test)]
mod examples;
#[cfg(test)]
mod files;
#[cfg(test)]
mod resuming;
#[cfg(test)]
mod stop_tests;
#[cfg(test)]
mod texts;
