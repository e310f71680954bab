// A sheet read from its bytes, and why the reading refuses it.
ghost use Rattle.std.specs.Prelude.{◌≡◌, ◌<◌, IfOk};
ghost use Rattle.counters.specs.Refusals.{answer_index, Refuses};
ghost use Rattle.sheet.specs.Counts.{most_slots};
ghost use Rattle.sheet.specs.Fields.{sheet_of};
ghost use Rattle.sheet.specs.Sizes.{places_all};
ghost use Rattle.sheet.specs.Numbers.{misfit, slot_beyond, beyond_uplink, beyond_subframe, silent, load_lines, read_lines, read_left, read_answer};
ghost use Rattle.sheet.specs.Range.{Ranged};

use crate::Sheet;
use crate::counts::{LCR_SLOTS, MOST_BITS, MOST_LOG, PAIRED};
use crate::fields::read_fields;
use crate::layout::{SPARE_AT, SPARE_WIDTH};
use counters::refusal::Refusal;

impl Sheet {
    // Whether every E is 0.
    fn is_silent(&self) -> bool
        requires { Ranged self.now }
        ensures { result ≡ silent self.now }
    {
        for i in 0..usize::from(self.channels) {
            if self.e[i] != 0 {
                return false;
            }
        }
        true
    }

    // Whether slot t of an uplink sheet, which has n physical channels, has more than two, or a logarithm over 4.
    fn slot_beyond(&self, t: usize, n: usize) -> bool
        requires { t < most_slots }
        ensures { result ≡ slot_beyond self.now.logs t n }
    {
        if PAIRED < n {
            return true;
        }
        for p in 0..n {
            if MOST_LOG < self.logs[PAIRED * t + p] {
                return true;
            }
        }
        false
    }

    // Whether a slot of the sheet is; in downlink none is asked.
    pub fn beyond_uplink(&self) -> bool
        requires { Ranged self.now }
        ensures { result ≡ beyond_uplink self.now }
    {
        if self.uplink == 0 {
            return false;
        }
        for t in 0..usize::from(self.slots) {
            if self.slot_beyond(t, usize::from(self.phchs[t])) {
                return true;
            }
        }
        false
    }

    // Whether a sub-frame at 1.28 Mcps has more slots than seven.
    fn beyond_subframe(&self) -> bool
        ensures { result ≡ beyond_subframe self.now }
    {
        if self.lcr == 0 {
            return false;
        }
        LCR_SLOTS < self.slots
    }

    // The lines from 5 on; the places of a sub-frame, where none of them refuses.
    pub fn check_load(&self) -> Result<u64, Refusal>
        requires { Ranged self.now }
        ensures number { Refuses (load_lines self.now) result }
        ensures places { IfOk result (λ w. w ≡ places_all self.now) }
    {
        let load = self.load();
        if load.empty {
            return Err(Refusal::NoCapacity);
        }
        if self.beyond_uplink() {
            return Err(Refusal::BadUplink);
        }
        if self.beyond_subframe() {
            return Err(Refusal::BadSubframe);
        }
        if MOST_BITS < self.all_equalised() {
            return Err(Refusal::ManyBits);
        }
        if MOST_BITS < self.frame_places(load.sum) {
            return Err(Refusal::ManyPlaces);
        }
        if self.is_silent() {
            return Err(Refusal::NoBits);
        }
        Ok(load.sum)
    }
}

// Whether the length is not what the fields need, or the spare bit or a padding bit is set.
fn fails_fit(s: &[u8], fields: &Sheet) -> bool
    requires { (fields.now ≡ sheet_of s.now) × Ranged fields.now }
    ensures { result ≡ misfit s.now }
{
    let need = fields.bits_needed();
    if s.len() != (need + 7) / 8 {
        return true;
    }
    if bits::read_field(s, SPARE_AT, SPARE_WIDTH) != 0 {
        return true;
    }
    if bits::read_field(s, need, 8 * s.len() - need) != 0 {
        return true;
    }
    false
}

// The lines of a sheet's bytes; the places of a sub-frame, where none of them refuses.
pub fn check_bytes(s: &[u8], fields: &Sheet) -> Result<u64, Refusal>
    requires { (fields.now ≡ sheet_of s.now) × Ranged fields.now }
    ensures number { Refuses (read_lines s.now) result }
    ensures places { IfOk result (λ w. w ≡ places_all fields.now) }
{
    if s.len() < 2 {
        return Err(Refusal::ShortSheet);
    }
    if fields.version != 1 {
        return Err(Refusal::OtherVersion);
    }
    if fields.slots == 0 {
        return Err(Refusal::NoSlots);
    }
    if fails_fit(s, fields) {
        return Err(Refusal::Malformed);
    }
    fields.check_load()
}

// Reads a sheet.
pub fn read_sheet(bytes: &[u8]) -> Result<Sheet, Refusal>
    ensures { (read_left result ≡ read_answer bytes.now) × (answer_index result ≡ 0) }
{
    let fields = read_fields(bytes);
    check_bytes(bytes, &fields)?;
    Ok(fields)
}
