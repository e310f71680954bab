// Coming home: a received frame gathered, taken back and finished.
#![tactic(auto)]

pub mod finishing;
pub mod gathering;
pub mod receiving;
pub mod taking;
