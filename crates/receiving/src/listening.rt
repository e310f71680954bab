// Listening to one channel of a received frame: what was heard of one bit, and the link record.
ghost use Rattle.std.specs.Prelude.{◌≡◌, ◌-◌, ◌<◌, [], ◌∷◌, IfOk};
ghost use Rattle.counters.specs.Lines.{line};
ghost use Rattle.counters.specs.Refusals.{Refuses};
ghost use Rattle.sheet.specs.Sizes.{size_of};
ghost use Rattle.receiving.specs.Listening.{not_sent, heard_left, heard_answer, link_left, link_answer};

use counters::refusal::Refusal;
use counters::{BitNumber, FrameNumber, TrchNumber};
use homing::receiving::{receive_bit, receive_link};
use joining::Heard;
use joining::linking::Link;
use looking::{find_trch, look_soft, open_frame};
use opening::Opened;

// Number 10: where a bit, counted from 1, stands in the segment of channel i.
fn find_bit(opened: &Opened, i: usize, bit: BitNumber) -> Result<usize, Refusal>
    requires { i < opened.now.fields.channels }
    ensures number { Refuses (line (not_sent opened.now.fields i bit.0) 10 ∷ []) result }
    ensures index { IfOk result (λ m. (m ≡ bit.0 - 1) × (m < size_of opened.now.fields i)) }
{
    if bit.is_among(u64::from(opened.sizes[i])) {
        Ok(bit.index())
    } else {
        Err(Refusal::Missing)
    }
}

// What was heard of a bit, counted from 1, of the channel's segment in this frame.
pub fn heard(
    bytes: &[u8],
    number: FrameNumber,
    frame: &[f32],
    trch: TrchNumber,
    bit: BitNumber,
) -> Result<Heard, Refusal>
    ensures { heard_left result ≡ heard_answer bytes.now number.0 frame.now trch.0 bit.0 }
{
    let opened = open_frame(bytes, number)?;
    let i = find_trch(&opened.fields, trch)?;
    let m = find_bit(&opened, i, bit)?;
    look_soft(frame, opened.capacity(), 0, 0)?;
    Ok(receive_bit(frame, &opened, number, i, m))
}

// The channel's link record.
pub fn link(
    bytes: &[u8],
    number: FrameNumber,
    frame: &[f32],
    trch: TrchNumber,
) -> Result<Link, Refusal>
    ensures { link_left result ≡ link_answer bytes.now number.0 frame.now trch.0 }
{
    let opened = open_frame(bytes, number)?;
    let i = find_trch(&opened.fields, trch)?;
    look_soft(frame, opened.capacity(), 0, 0)?;
    Ok(receive_link(frame, &opened, number, i))
}
