// How many places a frame may have that is built, or taken back, in a room of each size: specs/Room.antt, and MOST_BITS the largest.
use sheet::counts::MOST_BITS;

pub const TINY: usize = 256;

pub const SMALL: usize = 1024;

pub const MIDDLE: usize = 4096;

pub const LARGE: usize = 16384;

pub const HUGE: usize = 32768;

pub const WHOLE: usize = MOST_BITS as usize;
