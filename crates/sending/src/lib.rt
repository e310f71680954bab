// A frame is built: steps 1 to 9, or 1 to 7, or 8 and 9.
#![tactic(auto)]

ghost use Rattle.std.specs.Prelude.{◌≡◌};
ghost use Rattle.counters.specs.Refusals.{answer_number, at_of};
ghost use Rattle.looking.specs.Outcome.{outcome};
ghost use Rattle.sending.specs.Building.{build_into, multiplex_into, spread_into};

use counters::FrameNumber;
use counters::refusal::Refusal;
use frame::building::build_bits;
use frame::multiplexing::multiplex_bits;
use frame::spreading::spread_bits;
use looking::{look, open_frame};
use opening::open_sheet;

// Steps 1 to 9: the frame of the contents.
pub fn build(
    bytes: &[u8],
    frame: FrameNumber,
    contents: &[u8],
    out: &mut [u8],
) -> Result<u64, Refusal>
    ensures { outcome (answer_number result) (at_of result) out.new ≡ build_into bytes.now frame.0 contents.now out.old }
{
    let opened = open_frame(bytes, frame)?;
    let places = opened.capacity();
    look(contents, opened.fields.all_encoded(), out.len(), places)?;
    build_bits(contents, &opened, frame, out);
    Ok(places)
}

// Steps 1 to 7: the multiplexed bits of the contents.
pub fn multiplex(
    bytes: &[u8],
    frame: FrameNumber,
    contents: &[u8],
    out: &mut [u8],
) -> Result<u64, Refusal>
    ensures { outcome (answer_number result) (at_of result) out.new ≡ multiplex_into bytes.now frame.0 contents.now out.old }
{
    let opened = open_frame(bytes, frame)?;
    let places = opened.capacity();
    look(contents, opened.fields.all_encoded(), out.len(), places)?;
    multiplex_bits(contents, &opened, frame, out);
    Ok(places)
}

// Steps 8 and 9: the frame of multiplexed bits.
pub fn spread(bytes: &[u8], bits: &[u8], out: &mut [u8]) -> Result<u64, Refusal>
    ensures { outcome (answer_number result) (at_of result) out.new ≡ spread_into bytes.now bits.now out.old }
{
    let opened = open_sheet(bytes)?;
    let places = opened.capacity();
    look(bits, places, out.len(), places)?;
    spread_bits(bits, &opened.fields, out);
    Ok(places)
}
