// What several calls ask first: the sheet, the frame number, the channel, the lengths, and that the values lent are bits or in range.
#![tactic(auto)]

ghost use Rattle.std.specs.Prelude.{◌≡◌, ◌-◌, ◌<◌, [], ◌∷◌, IfOk, length, ltb};
ghost use Rattle.counters.specs.Lines.{line};
ghost use Rattle.counters.specs.Refusals.{Refuses};
ghost use Rattle.sheet.specs.Fields.{sheet_of};
ghost use Rattle.joining.specs.Range.{in_range};
ghost use Rattle.frame.specs.Bit.{is_bit};
ghost use Rattle.looking.specs.Looking.{last_frame, frame_lines, no_trch, not_long, Looks, Pointed};

use counters::refusal::Refusal;
use counters::{FrameNumber, TrchNumber};
use frame::checking::first_bad;
use joining::checking::first_out;
use opening::{Opened, with_sheet};
use sheet::Sheet;

pub const LAST_FRAME: u32 = 255;

// Number 9: whether the frame number is one.
pub fn check_frame(frame: FrameNumber) -> Result<(), Refusal>
    ensures { Refuses (line (ltb last_frame frame.0) 9 ∷ []) result }
{
    if frame.is_over(LAST_FRAME) {
        Err(Refusal::LateFrame)
    } else {
        Ok(())
    }
}

// The sheet's own numbers, then 9.
pub fn open_frame(bytes: &[u8], frame: FrameNumber) -> Result<Opened, Refusal>
    ensures number { Refuses (frame_lines bytes.now frame.0) result }
    ensures opened { IfOk result (λ o. o.fields ≡ sheet_of bytes.now) }
{
    with_sheet(bytes, |opened| {
        check_frame(frame)?;
        Ok(*opened)
    })
}

// Number 10: where TrCH k, counted from 1, stands among the channels.
pub fn find_trch(fields: &Sheet, trch: TrchNumber) -> Result<usize, Refusal>
    ensures number { Refuses (line (no_trch fields.now trch.0) 10 ∷ []) result }
    ensures index { IfOk result (λ i. (i ≡ trch.0 - 1) × (i < fields.now.channels)) }
{
    if trch.is_among(fields.channels) {
        Ok(trch.index())
    } else {
        Err(Refusal::Missing)
    }
}

// Number 11: whether `have` values are lent where `needed` are.
pub fn check_length(have: usize, needed: u64) -> Result<(), Refusal>
    ensures number { Refuses (line (not_long have needed) 11 ∷ []) result }
    ensures long { IfOk result (λ _. have ≡ needed) }
{
    if have as u64 == needed {
        Ok(())
    } else {
        Err(Refusal::WrongLength)
    }
}

// Number 12 where there is a first bad value.
fn check_values(bad: Option<usize>) -> Result<(), Refusal>
    ensures { Pointed bad result }
{
    match bad {
        Some(at) => Err(Refusal::BadValue(at as u64)),
        None => Ok(()),
    }
}

// Numbers 11 and 12: `needed` bits are lent, `room` places in a buffer of n.
pub fn look(bits: &[u8], needed: u64, n: usize, room: u64) -> Result<(), Refusal>
    ensures number { Looks is_bit [] bits.now needed n room result }
    ensures long { IfOk result (λ _. (length bits.now ≡ needed) × (n ≡ room)) }
{
    check_length(bits.len(), needed)?;
    check_length(n, room)?;
    check_values(first_bad(bits))
}

// The same of soft values. With a parameter for the test both would be as long as they are.
pub fn look_soft(values: &[f32], needed: u64, n: usize, room: u64) -> Result<(), Refusal>
    ensures number { Looks in_range [] values.now needed n room result }
    ensures long { IfOk result (λ _. (length values.now ≡ needed) × (n ≡ room)) }
{
    check_length(values.len(), needed)?;
    check_length(n, room)?;
    check_values(first_out(values))
}
