//! What a person is told of a fault or of a refusal, in plain words: where it is, and what it carries.
#![tactic(auto)]

pub mod texts;
