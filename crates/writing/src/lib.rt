// A sheet's bytes, written from its fields.
#![tactic(auto)]

pub mod numbers;
pub mod written;
