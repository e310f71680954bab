// The fields of a sheet as 549 numbers in a row, as C has them.
ghost use Rattle.std.specs.Prelude.{◌≡◌, ◌+◌, ◌≤◌, ◌<◌, length, take, drop};
ghost use Rattle.sheet.specs.Counts.{most_slots};
ghost use Rattle.sheet.specs.Fields.{log_in};
ghost use Rattle.sheets.specs.Flat.{flat_count, flat_logs, logs_taken, flat_of, sheet_from, LaidAt};

use sheet::Sheet;
use sheet::counts::{CAPACITIES, CHANNELS, CODES, LOGS, PAIRED, SLOTS};
use std::array;

pub const TTI_FROM: usize = 6;

pub const ENCODED_FROM: usize = TTI_FROM + CHANNELS;

pub const RATIO_FROM: usize = ENCODED_FROM + CHANNELS;

pub const PHCHS_FROM: usize = RATIO_FROM + CHANNELS;

pub const CAPS_FROM: usize = PHCHS_FROM + SLOTS;

pub const LOGS_FROM: usize = CAPS_FROM + CAPACITIES;

pub const FLAT: usize = LOGS_FROM + CAPACITIES;

// Lays a part into the row from `at` on.
fn lay(out: &mut [u16], at: usize, part: &[u16])
    requires { at + length part.now ≤ length out.old }
    ensures { LaidAt out.old out.new at part.now }
{
    out[at..at + part.len()].copy_from_slice(part);
}

// Takes a part of the row out, from `at` on.
fn part<const N: usize>(flat: &[u16], at: usize) -> [u16; N]
    requires { at + N ≤ length flat.now }
    ensures { result ≡ take N (drop at flat.now) }
{
    let mut out = [0; N];
    out.copy_from_slice(&flat[at..at + N]);
    out
}

// The logarithm of physical channel p of slot t. With its test in `from_fn`'s closure, the search for what that answers ended at a limit.
fn log_at(logs: &[u16; LOGS], t: usize, p: usize) -> u16
    requires { t < most_slots }
    ensures { result ≡ log_in logs.now t p }
{
    if p < PAIRED {
        return logs[PAIRED * t + p];
    }
    0
}

// The logarithms, which are two a slot, in a row of sixteen a slot.
fn spread_logs(logs: &[u16; LOGS]) -> [u16; CAPACITIES]
    ensures { result ≡ flat_logs logs.now }
{
    array::from_fn(|m| log_at(logs, m / CODES, m % CODES))
}

// Takes two of each sixteen out.
fn take_logs(flat: &[u16]) -> [u16; LOGS]
    requires { length flat.now ≡ flat_count }
    ensures { result ≡ logs_taken flat.now }
{
    array::from_fn(|k| flat[LOGS_FROM + (CODES * (k / PAIRED) + k % PAIRED)])
}

// Lays all fields into a row of 549.
pub fn lay_sheet(fields: &Sheet, out: &mut [u16])
    requires { length out.old ≡ flat_count }
    ensures { out.new ≡ flat_of fields.now }
{
    let head = [
        fields.version,
        fields.mode,
        fields.channels,
        fields.slots,
        fields.uplink,
        fields.lcr,
    ];
    lay(out, 0, &head);
    lay(out, TTI_FROM, &fields.tti);
    lay(out, ENCODED_FROM, &fields.e);
    lay(out, RATIO_FROM, &fields.rm);
    lay(out, PHCHS_FROM, &fields.phchs);
    lay(out, CAPS_FROM, &fields.caps);
    lay(out, LOGS_FROM, &spread_logs(&fields.logs));
}

// Takes all fields out of a row of 549.
pub fn take_sheet(flat: &[u16]) -> Sheet
    requires { length flat.now ≡ flat_count }
    ensures { result ≡ sheet_from flat.now }
{
    Sheet {
        version: flat[0],
        mode: flat[1],
        channels: flat[2],
        slots: flat[3],
        uplink: flat[4],
        lcr: flat[5],
        tti: part(flat, TTI_FROM),
        e: part(flat, ENCODED_FROM),
        rm: part(flat, RATIO_FROM),
        phchs: part(flat, PHCHS_FROM),
        caps: part(flat, CAPS_FROM),
        logs: take_logs(flat),
    }
}
