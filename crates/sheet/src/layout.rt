// Where the fields of a sheet stand in its bits, and how wide they are; specs/Layout.antt has the same for the definitions.

// The head: version, mode, I-1 without its top bit, T, uplink, 1.28 Mcps, the top bit of I-1, a spare bit.
pub const VERSION_AT: usize = 0;

pub const VERSION_WIDTH: usize = 4;

pub const MODE_AT: usize = 4;

pub const MODE_WIDTH: usize = 1;

pub const COUNT_AT: usize = 5;

pub const COUNT_WIDTH: usize = 3;

// What the top bit of I-1 is worth: 2 to the power COUNT_WIDTH.
pub const TOP_COUNTS: u64 = 8;

pub const SLOTS_AT: usize = 8;

pub const SLOTS_WIDTH: usize = 4;

pub const UPLINK_AT: usize = 12;

pub const UPLINK_WIDTH: usize = 1;

pub const LCR_AT: usize = 13;

pub const LCR_WIDTH: usize = 1;

pub const TOP_AT: usize = 14;

pub const TOP_WIDTH: usize = 1;

pub const SPARE_AT: usize = 15;

pub const SPARE_WIDTH: usize = 1;

pub const HEAD_WIDTH: usize = 16;

// What a field's last bit is worth in its byte of the head; for I-1 without its top bit, which ends its byte, what it stays below.
pub const VERSION_UNIT: u64 = 16;

pub const MODE_UNIT: u64 = 8;

pub const COUNT_END: u64 = 8;

pub const SLOTS_UNIT: u64 = 16;

pub const UPLINK_UNIT: u64 = 8;

pub const LCR_UNIT: u64 = 4;

pub const TOP_UNIT: u64 = 2;

// A channel: TTI, E, RM-1.
pub const TTI_WIDTH: usize = 2;

pub const ENCODED_WIDTH: usize = 14;

// What a TTI is worth before an E: 2 to the power ENCODED_WIDTH.
pub const TTI_COUNTS: u64 = 16384;

pub const RATIO_WIDTH: usize = 8;

pub const CHANNEL_WIDTH: usize = TTI_WIDTH + ENCODED_WIDTH + RATIO_WIDTH;

// A slot: P-1, and P times, in uplink alone the logarithm of the spreading factor, and U.
pub const CODES_WIDTH: usize = 4;

pub const LOG_WIDTH: usize = 3;

pub const CAPACITY_WIDTH: usize = 12;
