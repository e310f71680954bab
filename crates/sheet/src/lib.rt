// The format sheet: its fields, how they are read from bytes, and the sizes that they give.
#![tactic(auto)]

pub mod counts;
pub mod fields;
pub mod layout;
pub mod reading;
pub mod sizes;

use counts::{CAPACITIES, CHANNELS, LOGS, SLOTS};

// The fields of a sheet, each wide enough for values out of its range: version, mode, I, T, uplink, 1.28 Mcps (the low chip rate); TTI, E and RM
// of each channel; P of each slot; U of physical channel p of slot t, both counted from 0, at 16 t + p; for p below 2 the logarithm of its
// spreading factor at 2 t + p, since an uplink slot has no more. Room past I, T or P holds no field, and in downlink the logarithms hold none.
#[derive(Clone, Copy)]
pub struct Sheet {
    pub version: u16,
    pub mode: u16,
    pub channels: u16,
    pub slots: u16,
    pub uplink: u16,
    pub lcr: u16,
    pub tti: [u16; CHANNELS],
    pub e: [u16; CHANNELS],
    pub rm: [u16; CHANNELS],
    pub phchs: [u16; SLOTS],
    pub caps: [u16; CAPACITIES],
    pub logs: [u16; LOGS],
}
