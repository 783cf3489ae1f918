//! Tests of what an edited file comes home as.
#![tactic(auto)]

#[cfg(test)]
mod example;
