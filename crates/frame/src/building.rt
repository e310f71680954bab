// Steps 1 to 9: the frame of the contents.
ghost use Rattle.std.specs.Prelude.{◌≡◌, ◌≤◌, ◌<◌, length};
ghost use Rattle.sheet.specs.Counts.{most_bits};
ghost use Rattle.sheet.specs.Sizes.{encoded_all, capacity_all};
ghost use Rattle.frame.specs.Frame.{bit_frame};
ghost use Rattle.frame.specs.Room.{middle_frame, room_of};

use crate::multiplexing::multiplex_bits;
use crate::rooms::{HUGE, LARGE, MIDDLE, SMALL, TINY, WHOLE};
use crate::spreading::spread_bits;
use counters::FrameNumber;
use opening::Opened;

// The room is for the multiplexed bits; a frame takes its first part.
#[tactic(auto, unfolding(crate::specs::Frame::bit_frame, crate::specs::Frame::frame_of, crate::specs::Frame::multiplexed_bits))]
fn build_in<const ROOM: usize>(contents: &[u8], opened: &Opened, frame: FrameNumber, out: &mut [u8])
    requires { (length contents.now ≡ encoded_all opened.now.fields) × (ROOM ≤ most_bits) × (ROOM ≡ room_of (length out.old)) × (length out.old ≤ ROOM) × (length out.old ≡ capacity_all opened.now.fields) }
    ensures { out.new ≡ bit_frame opened.now.fields frame.0 contents.now }
{
    let mut room = [0u8; ROOM];
    let bits = &mut room[..out.len()];
    multiplex_bits(contents, opened, frame, bits);
    spread_bits(bits, &opened.fields, out);
}

// Of a frame of more than MIDDLE places. With the rooms of all sizes in one function the smallest frame would touch the largest one's stack
// (docs/SPEED.md), so it is not to be drawn into its caller.
#[inline(never)]
#[tactic(auto, unfolding(crate::specs::Room::room_of))]
fn build_far(contents: &[u8], opened: &Opened, frame: FrameNumber, out: &mut [u8])
    requires { (length contents.now ≡ encoded_all opened.now.fields) × (middle_frame < length out.old) × (length out.old ≡ capacity_all opened.now.fields) }
    ensures { out.new ≡ bit_frame opened.now.fields frame.0 contents.now }
{
    if out.len() <= LARGE {
        build_in::<LARGE>(contents, opened, frame, out);
    } else if out.len() <= HUGE {
        build_in::<HUGE>(contents, opened, frame, out);
    } else {
        build_in::<WHOLE>(contents, opened, frame, out);
    }
}

#[tactic(auto, unfolding(crate::specs::Room::room_of))]
pub fn build_bits(contents: &[u8], opened: &Opened, frame: FrameNumber, out: &mut [u8])
    requires { (length contents.now ≡ encoded_all opened.now.fields) × (length out.old ≡ capacity_all opened.now.fields) }
    ensures { out.new ≡ bit_frame opened.now.fields frame.0 contents.now }
{
    let n = out.len();
    if n <= TINY {
        build_in::<TINY>(contents, opened, frame, out);
    } else if n <= SMALL {
        build_in::<SMALL>(contents, opened, frame, out);
    } else if n <= MIDDLE {
        build_in::<MIDDLE>(contents, opened, frame, out);
    } else {
        build_far(contents, opened, frame, out);
    }
}
