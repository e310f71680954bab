// Why writing a sheet from its fields refuses it.
ghost use Rattle.std.specs.Prelude.{◌≡◌, ◌≤◌, ◌<◌};
ghost use Rattle.laws.specs.Sums.{any_to};
ghost use Rattle.counters.specs.Refusals.{Refuses};
ghost use Rattle.sheet.specs.Counts.{most_channels, most_slots};
ghost use Rattle.writing.specs.Numbers.{channel_outside, slot_outside, flag_outside, field_outside, field_lines, write_lines};

use counters::refusal::Refusal;
use sheet::Sheet;
use sheet::counts::{CHANNELS, CODES, MOST_CAPACITY, MOST_ENCODED, MOST_RATIO, MOST_TTI, SLOTS};

// Whether TTI, E or RM of channel i is outside its range.
fn channel_outside(fields: &Sheet, i: usize) -> bool
    requires { i < most_channels }
    ensures { result ≡ channel_outside fields.now i }
{
    MOST_TTI < fields.tti[i]
        || MOST_ENCODED < fields.e[i]
        || fields.rm[i] < 1
        || MOST_RATIO < fields.rm[i]
}

#[tactic(auto, using(laws::proofs::SumLaws::any_more, laws::proofs::SumLaws::any_hit), unfolding(laws::specs::Sums::any_to))]
fn channels_outside(fields: &Sheet) -> bool
    requires { fields.now.channels ≤ most_channels }
    ensures { result ≡ any_to (channel_outside fields.now) fields.now.channels }
{
    for i in 0..usize::from(fields.channels) {
        if channel_outside(fields, i) {
            return true;
        }
    }
    false
}

// Whether P or a capacity of slot t is outside its range.
#[tactic(auto, using(laws::proofs::SumLaws::any_more, laws::proofs::SumLaws::any_hit), unfolding(laws::specs::Sums::any_to))]
fn slot_outside(fields: &Sheet, t: usize) -> bool
    requires { t < most_slots }
    ensures { result ≡ slot_outside fields.now t }
{
    let n = usize::from(fields.phchs[t]);
    if n < 1 || CODES < n {
        return true;
    }
    for p in 0..n {
        let m = CODES * t + p;
        if MOST_CAPACITY < fields.caps[m] {
            return true;
        }
    }
    false
}

#[tactic(auto, using(laws::proofs::SumLaws::any_more, laws::proofs::SumLaws::any_hit), unfolding(laws::specs::Sums::any_to))]
fn slots_outside(fields: &Sheet) -> bool
    requires { fields.now.slots ≤ most_slots }
    ensures { result ≡ any_to (slot_outside fields.now) fields.now.slots }
{
    for t in 0..usize::from(fields.slots) {
        if slot_outside(fields, t) {
            return true;
        }
    }
    false
}

// Whether a field of one bit is over 1.
fn flag_outside(fields: &Sheet) -> bool
    ensures { result ≡ flag_outside fields.now }
{
    1 < fields.mode || 1 < fields.uplink || 1 < fields.lcr
}

// Whether a field is outside its range, and none of 2, 3, 5, 13 and 14 names it.
fn field_outside(fields: &Sheet) -> bool
    ensures { result ≡ field_outside fields.now }
{
    let n = usize::from(fields.channels);
    flag_outside(fields)
        || n < 1
        || CHANNELS < n
        || SLOTS < usize::from(fields.slots)
        || channels_outside(fields)
        || slots_outside(fields)
}

// The lines of the fields alone.
#[tactic(auto, using(crate::proofs::RangeLaws::ranged_of))]
pub fn check_fields(fields: &Sheet) -> Result<(), Refusal>
    ensures { Refuses (field_lines fields.now) result }
{
    if fields.version != 1 {
        return Err(Refusal::OtherVersion);
    }
    if fields.slots == 0 {
        return Err(Refusal::NoSlots);
    }
    if field_outside(fields) {
        return Err(Refusal::Malformed);
    }
    fields.check_load()?;
    Ok(())
}

// The lines of writing into a buffer of n bytes.
pub fn check_write(fields: &Sheet, n: usize) -> Result<(), Refusal>
    ensures { Refuses (write_lines fields.now n) result }
{
    check_fields(fields)?;
    if n != fields.bytes_needed() {
        return Err(Refusal::WrongLength);
    }
    Ok(())
}
