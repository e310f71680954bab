// Rate matching: how many bits of each channel go into a frame.
#![tactic(auto)]

pub mod shares;
