// The calls that bring soft values home, in the form in which C has them: see exports.rt.
ghost use Rattle.std.specs.Prelude.{◌≡◌};
ghost use Rattle.looking.specs.Outcome.{outcome};
ghost use Rattle.receiving.specs.Receiving.{gather_into, take_into, finish_into};
ghost use Rattle.receiving.specs.Listening.{heard_answer, numbers, heard_numbers, link_answer, link_made};

use crate::telling::{index, number, tell};
use counters::{BitNumber, FrameNumber, TrchNumber};
use joining::Heard;
use joining::linking::Link;
use receiving::finishing::finish;
use receiving::listening::{heard, link};
use receiving::{gather, take_back};

pub fn umv_gather(bytes: &[u8], frame: &[f32], multiplexed: &mut [f32], at: &mut u64) -> u32
    ensures { outcome result at.new multiplexed.new ≡ gather_into bytes.now frame.now multiplexed.old }
{
    tell(gather(bytes, frame, multiplexed), at)
}

pub fn umv_take_back(
    bytes: &[u8],
    frame_number: u32,
    frame: &[f32],
    joined: &mut [f32],
    at: &mut u64,
) -> u32
    ensures { outcome result at.new joined.new ≡ take_into bytes.now frame_number frame.now joined.old }
{
    tell(
        take_back(bytes, FrameNumber(frame_number), frame, joined),
        at,
    )
}

pub fn umv_finish(bytes: &[u8], trch: u32, joined: &[f32], coded: &mut [f32], at: &mut u64) -> u32
    ensures { outcome result at.new coded.new ≡ finish_into bytes.now trch joined.now coded.old }
{
    tell(finish(bytes, TrchNumber(trch), joined, coded), at)
}

pub fn umv_heard(
    bytes: &[u8],
    frame_number: u32,
    frame: &[f32],
    trch: u32,
    bit: u32,
    at: &mut u64,
    value: &mut f32,
    copies: &mut u64,
) -> u32
    ensures { numbers result at.new value.new copies.new ≡ heard_numbers (heard_answer bytes.now frame_number frame.now trch bit) }
{
    let answer = heard(
        bytes,
        FrameNumber(frame_number),
        frame,
        TrchNumber(trch),
        BitNumber(bit),
    );
    *at = index(answer);
    match answer.unwrap_or(Heard::Nothing) {
        Heard::Nothing => {
            *value = 0.0;
            *copies = 0;
        }
        Heard::Once(x) => {
            *value = x;
            *copies = 1;
        }
        Heard::Joined(x, n) => {
            *value = x;
            *copies = n as u64;
        }
    }
    number(answer)
}

pub fn umv_link(
    bytes: &[u8],
    frame_number: u32,
    frame: &[f32],
    trch: u32,
    at: &mut u64,
    least: &mut f32,
    greatest: &mut f32,
    punctured: &mut u64,
) -> u32
    ensures { link_made result at.new least.new greatest.new punctured.new ≡ link_answer bytes.now frame_number frame.now trch }
{
    let answer = link(bytes, FrameNumber(frame_number), frame, TrchNumber(trch));
    let found = answer.unwrap_or(Link {
        least: 0.0,
        greatest: 0.0,
        punctured: 0,
    });
    *at = index(answer);
    *least = found.least;
    *greatest = found.greatest;
    *punctured = found.punctured as u64;
    number(answer)
}
