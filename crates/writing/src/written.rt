// The bytes of a sheet's fields: a bit to a byte first, then packed.
ghost use Rattle.std.specs.Prelude.{◌≡◌, List, [], ◌++◌, ℕ, ◌+◌, ◌*◌, ◌≤◌, ◌<◌, length};
ghost use Rattle.bits.specs.Bits.{field};
ghost use Rattle.counters.specs.Refusals.{answer_in};
ghost use Rattle.sheet.specs.Counts.{most_channels, most_slots, most_codes, longest_form};
ghost use Rattle.sheet.specs.Layout.{channel_at, slot_width};
ghost use Rattle.sheet.specs.Fields.{phchs_of, log_of};
ghost use Rattle.sheet.specs.Sizes.{bytes_needed};
ghost use Rattle.sheet.specs.Range.{Ranged};
ghost use Rattle.writing.specs.Written.{head_bits, channel_bits, slots_bits, sheet_bits, bytes_of, length_answer, write_answer, written_to, BitsWritten};

use crate::numbers::{check_fields, check_write};
use counters::refusal::Refusal;
use sheet::Sheet;
use sheet::counts::{CODES, LONGEST_FORM, PAIRED};
use sheet::layout::{
    CAPACITY_WIDTH, CODES_WIDTH, COUNT_AT, COUNT_WIDTH, ENCODED_WIDTH, LCR_AT, LCR_WIDTH,
    LOG_WIDTH, MODE_AT, MODE_WIDTH, RATIO_WIDTH, SLOTS_AT, SLOTS_WIDTH, SPARE_AT, SPARE_WIDTH,
    TOP_AT, TOP_COUNTS, TOP_WIDTH, TTI_WIDTH, UPLINK_AT, UPLINK_WIDTH, VERSION_AT, VERSION_WIDTH,
};

// The bits of a sheet, one to a byte: so many are written, and the others are 0.
#[derive(Drop)]
struct Bits {
    bits: [u8; 8 * LONGEST_FORM],
    at: usize,
}

impl Bits {
    // A field of so many bits, behind those before it.
    fn put(&mut self, width: usize, value: u64)
        requires { (width ≤ 14) × (self.old.at + width ≤ 8 * longest_form) }
        ensures more { (l : List ℕ) → BitsWritten self.old l → BitsWritten self.new (l ++ field width value) }
        ensures end { self.new.at ≡ self.old.at + width }
    {
        bits::put_field(&mut self.bits, self.at, width, value);
        self.at += width;
    }

    fn put_head(&mut self, fields: &Sheet)
        requires { Ranged fields.now × BitsWritten self.old [] }
        ensures { BitsWritten self.new (head_bits fields.now) }
    {
        let last = u64::from(fields.channels) - 1;
        prove!(self.at == VERSION_AT);
        self.put(VERSION_WIDTH, u64::from(fields.version));
        prove!(self.at == MODE_AT);
        self.put(MODE_WIDTH, u64::from(fields.mode));
        prove!(self.at == COUNT_AT);
        self.put(COUNT_WIDTH, last % TOP_COUNTS);
        prove!(self.at == SLOTS_AT);
        self.put(SLOTS_WIDTH, u64::from(fields.slots));
        prove!(self.at == UPLINK_AT);
        self.put(UPLINK_WIDTH, u64::from(fields.uplink));
        prove!(self.at == LCR_AT);
        self.put(LCR_WIDTH, u64::from(fields.lcr));
        prove!(self.at == TOP_AT);
        self.put(TOP_WIDTH, last / TOP_COUNTS);
        prove!(self.at == SPARE_AT);
        self.put(SPARE_WIDTH, 0);
    }

    fn put_channels(&mut self, fields: &Sheet)
        requires { Ranged fields.now × BitsWritten self.old (head_bits fields.now) }
        ensures { BitsWritten self.new (channel_bits fields.now fields.now.channels) }
    {
        for i in 0..usize::from(fields.channels) {
            self.put(TTI_WIDTH, u64::from(fields.tti[i]));
            self.put(ENCODED_WIDTH, u64::from(fields.e[i]));
            self.put(RATIO_WIDTH, u64::from(fields.rm[i]) - 1);
        }
    }

    fn put_slot(&mut self, fields: &Sheet, t: usize)
        requires { (fields.now.uplink ≤ 1) × (t < most_slots) × (1 ≤ phchs_of fields.now t) × (phchs_of fields.now t ≤ most_codes) × (self.old.at ≤ channel_at most_channels + slot_width 1 most_codes * t) × BitsWritten self.old (slots_bits fields.now t) }
        ensures more { BitsWritten self.new (slots_bits fields.now (t + 1)) }
        ensures room { self.new.at ≤ channel_at most_channels + slot_width 1 most_codes * (t + 1) }
    {
        let n = usize::from(fields.phchs[t]);
        self.put(CODES_WIDTH, (n - 1) as u64);
        let width = LOG_WIDTH * usize::from(fields.uplink);
        for p in 0..n {
            let m = CODES * t + p;
            self.put(width, log_at(fields, t, p));
            self.put(CAPACITY_WIDTH, u64::from(fields.caps[m]));
        }
    }

    fn put_slots(&mut self, fields: &Sheet)
        requires { Ranged fields.now × BitsWritten self.old (channel_bits fields.now fields.now.channels) }
        ensures { BitsWritten self.new (sheet_bits fields.now) }
    {
        for t in 0..usize::from(fields.slots) {
            self.put_slot(fields, t);
        }
    }
}

// The logarithm of physical channel p of slot t.
fn log_at(fields: &Sheet, t: usize, p: usize) -> u64
    requires { t < most_slots }
    ensures { result ≡ log_of fields.now t p }
{
    if p < PAIRED {
        return u64::from(fields.logs[PAIRED * t + p]);
    }
    0
}

// The bytes of fields that are all in range.
fn put_sheet(fields: &Sheet, out: &mut [u8])
    requires { Ranged fields.now × (length out.old ≡ bytes_needed fields.now) × (bytes_needed fields.now ≤ longest_form) }
    ensures { out.new ≡ bytes_of fields.now }
{
    let mut b = Bits {
        bits: [0; 8 * LONGEST_FORM],
        at: 0,
    };
    b.put_head(fields);
    b.put_channels(fields);
    b.put_slots(fields);
    bits::pack(&b.bits, out);
}

// How many bytes the sheet of these fields has, or why there is none.
pub fn sheet_length(fields: &Sheet) -> Result<u64, Refusal>
    ensures { answer_in result ≡ length_answer fields.now }
{
    check_fields(fields)?;
    Ok(fields.bytes_needed() as u64)
}

// Writes a sheet, or refuses and leaves the buffer as it is.
pub fn write_sheet(fields: &Sheet, out: &mut [u8]) -> Result<u64, Refusal>
    ensures answered { answer_in result ≡ write_answer fields.now out.old }
    ensures written { out.new ≡ written_to fields.now out.old }
{
    let n = out.len();
    check_write(fields, n)?;
    put_sheet(fields, out);
    Ok(n as u64)
}
