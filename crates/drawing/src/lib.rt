// A frame drawn as cells: pages of text, the scale, what each place looks like, and the sub-frames and slots one below the other.
#![tactic(auto)]

pub mod cells;
mod labels;
pub mod layout;
pub mod pages;
pub mod scale;
pub mod text;
