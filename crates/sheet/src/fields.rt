// The fields of a sheet's bytes, whatever they are.
ghost use Rattle.std.specs.Prelude.{◌≡◌, ◌*◌, ◌%◌, ◌≤◌};
ghost use Rattle.laws.specs.Tables.{up_to};
ghost use Rattle.bits.specs.Bits.{bits_at};
ghost use Rattle.sheet.specs.Counts.{most_channels, most_slots, most_codes, most_paired, most_needed};
ghost use Rattle.sheet.specs.Layout.{log_width, capacity_width, channel_at};
ghost use Rattle.sheet.specs.Fields.{uplink_in, sheet_of};
ghost use Rattle.sheet.specs.Reading.{channels_to, slots_to, logs_to, LogsAsk};

use crate::Sheet;
use crate::counts::{CAPACITIES, CHANNELS, CODES, LOGS, PAIRED, SLOTS};
use crate::layout::{
    CAPACITY_WIDTH, CHANNEL_WIDTH, CODES_WIDTH, COUNT_END, ENCODED_WIDTH, HEAD_WIDTH, LCR_UNIT,
    LOG_WIDTH, MODE_UNIT, SLOTS_UNIT, TOP_COUNTS, TOP_UNIT, TTI_COUNTS, TTI_WIDTH, UPLINK_UNIT,
    VERSION_UNIT,
};
use crate::sizes::slot_width;

#[derive(Clone, Copy)]
pub struct Channels {
    pub tti: [u16; CHANNELS],
    pub e: [u16; CHANNELS],
    pub rm: [u16; CHANNELS],
}

#[derive(Clone, Copy)]
pub struct Slots {
    pub phchs: [u16; SLOTS],
    pub caps: [u16; CAPACITIES],
}

// TTI, E and RM of n channels, 0 past them. A channel is three bytes: TTI and E are two, RM the third.
fn read_channels(s: &[u8], n: usize) -> Channels
    requires { n ≤ most_channels }
    ensures { result ≡ channels_to s.now n }
{
    let mut c = Channels {
        tti: [0; CHANNELS],
        e: [0; CHANNELS],
        rm: [0; CHANNELS],
    };
    for k in 0..n {
        let at = HEAD_WIDTH + CHANNEL_WIDTH * k;
        let two = bits::read_field(s, at, TTI_WIDTH + ENCODED_WIDTH);
        c.tti[k] = (two / TTI_COUNTS) as u16;
        c.e[k] = (two % TTI_COUNTS) as u16;
        c.rm[k] = (bits::read_byte(s, at / 8 + 2) + 1) as u16;
    }
    c
}

// U at `at`: two bytes hold it, or each half of it. In downlink they always do; asked first, that leaves the loop over its codes without a test.
fn read_capacity(s: &[u8], up: usize, at: usize) -> u16
    requires { (at ≤ most_needed) × (up ≡ 0 → at % 4 ≡ 0) }
    ensures { result ≡ bits_at s.now at capacity_width }
{
    if up == 0 {
        return bits::read_field(s, at, CAPACITY_WIDTH) as u16;
    }
    if at % 8 <= 4 {
        return bits::read_field(s, at, CAPACITY_WIDTH) as u16;
    }
    (bits::read_field(s, at, 6) * 64 + bits::read_field(s, at + 6, 6)) as u16
}

// P and the capacities of t slots, the first at `start`; 0 past them. `up` is 1 in uplink, where a logarithm stands before each U, and else 0.
fn read_slots(s: &[u8], up: usize, start: usize, t: usize) -> Slots
    requires { (up ≡ uplink_in s.now) × (t ≤ most_slots) × (start % 4 ≡ 0) × (start ≤ channel_at most_channels) }
    ensures { result ≡ slots_to s.now start t (most_codes * t) }
{
    let mut r = Slots {
        phchs: [0; SLOTS],
        caps: [0; CAPACITIES],
    };
    let before = LOG_WIDTH * up;
    let mut at = start;
    for i in 0..t {
        let p = (bits::read_field(s, at, CODES_WIDTH) + 1) as usize;
        r.phchs[i] = p as u16;
        at += CODES_WIDTH;
        for j in 0..p {
            let m = CODES * i + j;
            r.caps[m] = read_capacity(s, up, at + before);
            at += before + CAPACITY_WIDTH;
        }
    }
    r
}

// The logarithm of a slot's second physical channel, which stands at `at`; 0 where it has none.
fn second_log(s: &[u8], at: usize, p: u16) -> u16
    requires { at ≤ most_needed }
    ensures { result ≡ up_to p 1 (bits_at s.now at (log_width 1)) }
{
    if p < 2 {
        return 0;
    }
    bits::read_field(s, at, LOG_WIDTH) as u16
}

// The logarithms of t slots, the first at `start`; 0 past them, and all 0 in downlink, where `up` is 0.
fn read_logs<'a>(
    s: &'a [u8],
    up: usize,
    phchs: &'a [u16; SLOTS],
    start: usize,
    t: usize,
) -> [u16; LOGS]
    requires { LogsAsk s.now up phchs.now start t }
    ensures { result ≡ logs_to s.now start (most_paired * t) }
{
    let mut logs = [0u16; LOGS];
    if up == 0 {
        return logs;
    }
    let mut at = start;
    for i in 0..t {
        let p = phchs[i];
        let first = at + CODES_WIDTH;
        logs[PAIRED * i] = bits::read_field(s, first, LOG_WIDTH) as u16;
        logs[PAIRED * i + 1] = second_log(s, first + (LOG_WIDTH + CAPACITY_WIDTH), p);
        at += slot_width(1, p);
    }
    logs
}

// All fields; 0 past I, T and P. Those of the head are divided out of its two bytes.
pub fn read_fields(s: &[u8]) -> Sheet
    ensures { result ≡ sheet_of s.now }
{
    let first = bits::read_byte(s, 0);
    let second = bits::read_byte(s, 1);
    let n = (TOP_COUNTS * (second / TOP_UNIT % 2) + first % COUNT_END + 1) as usize;
    let t = (second / SLOTS_UNIT) as usize;
    let up = (second / UPLINK_UNIT % 2) as usize;
    let c = read_channels(s, n);
    let start = HEAD_WIDTH + CHANNEL_WIDTH * n;
    let r = read_slots(s, up, start, t);
    let logs = read_logs(s, up, &r.phchs, start, t);
    let tti = c.tti;
    let e = c.e;
    let rm = c.rm;
    let phchs = r.phchs;
    let caps = r.caps;
    Sheet {
        version: (first / VERSION_UNIT) as u16,
        mode: (first / MODE_UNIT % 2) as u16,
        channels: n as u16,
        slots: t as u16,
        uplink: up as u16,
        lcr: (second / LCR_UNIT % 2) as u16,
        tti,
        e,
        rm,
        phchs,
        caps,
        logs,
    }
}
