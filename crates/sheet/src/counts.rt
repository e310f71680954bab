// The counts of document 01, each said once; specs/Counts.antt has the same for the definitions.
use crate::layout::{CAPACITY_WIDTH, CHANNEL_WIDTH, CODES_WIDTH, HEAD_WIDTH, LOG_WIDTH};

// Transport channels, slots, and physical channels (codes) of a slot.
pub const CHANNELS: usize = 16;

pub const SLOTS: usize = 15;

pub const CODES: usize = 16;

pub const CAPACITIES: usize = SLOTS * CODES;

// Slots of a sub-frame at 1.28 Mcps.
pub const LCR_SLOTS: u16 = 7;

// Physical channels of an uplink slot.
pub const PAIRED: usize = 2;

pub const LOGS: usize = SLOTS * PAIRED;

// The sum of all equalised sizes, and that of all capacities.
pub const MOST_BITS: u64 = 60000;

// The ranges of a channel's fields and of a capacity.
pub const MOST_TTI: u16 = 3;

// The frames of the longest TTI.
pub const FRAMES: usize = 8;

pub const MOST_ENCODED: u16 = 16383;

pub const MOST_RATIO: u16 = 256;

pub const MOST_CAPACITY: u16 = 4095;

// The base-two logarithm of an uplink spreading factor.
pub const MOST_LOG: u16 = 4;

// The bits that the fields of the longest sheet in form need, and its bytes. Number 13 refuses it: the longest accepted one is shorter.
pub const MOST_NEEDED: usize = HEAD_WIDTH
    + CHANNEL_WIDTH * CHANNELS
    + (CODES_WIDTH + (LOG_WIDTH + CAPACITY_WIDTH) * CODES) * SLOTS;

pub const LONGEST_FORM: usize = (MOST_NEEDED + 7) / 8;
