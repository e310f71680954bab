// A frame: steps 1 to 9, one after the other.
#![tactic(auto)]

pub mod building;
pub mod checking;
pub mod multiplexing;
pub mod rooms;
pub mod spreading;
pub mod walking;
