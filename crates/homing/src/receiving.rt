// A received frame: gathered, and what is then done with the gathered values.
ghost use Rattle.std.specs.Prelude.{◌≡◌, ◌≤◌, ◌<◌, length};
ghost use Rattle.std.specs.Float.{nan};
ghost use Rattle.std.specs.Fn.{TakesAt, CalledAt};
ghost use Rattle.sheet.specs.Counts.{most_bits};
ghost use Rattle.sheet.specs.Sizes.{size_of, capacity_all, equalised_all};
ghost use Rattle.sheet.specs.Range.{Accepted};
ghost use Rattle.frame.specs.Room.{middle_frame, room_of};
ghost use Rattle.homing.specs.Gather.{gathered};
ghost use Rattle.homing.specs.Home.{taken_back_of, heard_at, link_in};

use crate::gathering::gather_values;
use crate::taking::{hear_channel, part, survey_channel, take_segments};
use counters::FrameNumber;
use frame::rooms::{HUGE, LARGE, MIDDLE, SMALL, TINY, WHOLE};
use joining::Heard;
use joining::linking::Link;
use opening::Opened;
use sheet::Sheet;

// The room is for gathered values; a frame takes its first part. Rooms are made of ones: all bytes 0 would be cleared byte by byte (docs/SPEED.md).
// What is done with the values is lent: of a closure that it is handed the caller would not learn what the call left where the closure writes.
fn receive_in<const ROOM: usize, R, F: FnMut(&[f32]) -> R>(
    frame: &[f32],
    fields: &Sheet,
    take: &mut F,
) -> R
    requires { Accepted fields.now × (length frame.now ≡ capacity_all fields.now) × (length frame.now ≤ ROOM) × (ROOM ≤ most_bits) × (ROOM ≡ room_of (length frame.now)) × TakesAt F.FnMut take.old (gathered nan fields.now frame.now) }
    ensures { CalledAt F.FnMut take.old (gathered nan fields.now frame.now) result take.new }
{
    let mut room = [1.0f32; ROOM];
    let values = &mut room[..frame.len()];
    gather_values(frame, fields, values);
    take(values)
}

// Of a frame of at most MIDDLE places. With the rooms of all sizes in one function the smallest frame would touch the largest one's stack
// (docs/SPEED.md), so this function and the next are not to be drawn into their caller.
#[inline(never)]
#[tactic(auto, unfolding(frame::specs::Room::room_of))]
fn receive_near<R, F: FnMut(&[f32]) -> R>(frame: &[f32], fields: &Sheet, take: &mut F) -> R
    requires { Accepted fields.now × (length frame.now ≡ capacity_all fields.now) × (length frame.now ≤ middle_frame) × TakesAt F.FnMut take.old (gathered nan fields.now frame.now) }
    ensures { CalledAt F.FnMut take.old (gathered nan fields.now frame.now) result take.new }
{
    if frame.len() <= TINY {
        receive_in::<TINY, R, F>(frame, fields, take)
    } else if frame.len() <= SMALL {
        receive_in::<SMALL, R, F>(frame, fields, take)
    } else {
        receive_in::<MIDDLE, R, F>(frame, fields, take)
    }
}

#[inline(never)]
#[tactic(auto, unfolding(frame::specs::Room::room_of))]
fn receive_far<R, F: FnMut(&[f32]) -> R>(frame: &[f32], fields: &Sheet, take: &mut F) -> R
    requires { Accepted fields.now × (length frame.now ≡ capacity_all fields.now) × (middle_frame < length frame.now) × TakesAt F.FnMut take.old (gathered nan fields.now frame.now) }
    ensures { CalledAt F.FnMut take.old (gathered nan fields.now frame.now) result take.new }
{
    if frame.len() <= LARGE {
        receive_in::<LARGE, R, F>(frame, fields, take)
    } else if frame.len() <= HUGE {
        receive_in::<HUGE, R, F>(frame, fields, take)
    } else {
        receive_in::<WHOLE, R, F>(frame, fields, take)
    }
}

fn receive<R, F: FnMut(&[f32]) -> R>(frame: &[f32], fields: &Sheet, take: &mut F) -> R
    requires { Accepted fields.now × (length frame.now ≡ capacity_all fields.now) × TakesAt F.FnMut take.old (gathered nan fields.now frame.now) }
    ensures { CalledAt F.FnMut take.old (gathered nan fields.now frame.now) result take.new }
{
    if frame.len() <= MIDDLE {
        receive_near(frame, fields, take)
    } else {
        receive_far(frame, fields, take)
    }
}

// Every channel's segment of a received frame.
pub fn receive_all(frame: &[f32], opened: &Opened, number: FrameNumber, joined: &mut [f32])
    requires { (length frame.now ≡ capacity_all opened.now.fields) × (length joined.old ≡ equalised_all opened.now.fields) }
    ensures { joined.new ≡ taken_back_of opened.now.fields number.0 frame.now joined.old }
{
    receive(
        frame,
        &opened.fields,
        &mut |values| take_segments(values, opened, number, joined),
    );
}

// What was heard of bit m, from 0, of channel i's segment.
pub fn receive_bit(frame: &[f32], opened: &Opened, number: FrameNumber, i: usize, m: usize) -> Heard
    requires { (length frame.now ≡ capacity_all opened.now.fields) × (i < opened.now.fields.channels) × (m < size_of opened.now.fields i) }
    ensures { result ≡ heard_at opened.now.fields number.0 i m frame.now }
{
    receive(
        frame,
        &opened.fields,
        &mut |values| hear_channel(part(values, opened, i), opened, i, number, m),
    )
}

// The link record of channel i.
pub fn receive_link(frame: &[f32], opened: &Opened, number: FrameNumber, i: usize) -> Link
    requires { (length frame.now ≡ capacity_all opened.now.fields) × (i < opened.now.fields.channels) }
    ensures { result ≡ link_in opened.now.fields number.0 i frame.now }
{
    receive(
        frame,
        &opened.fields,
        &mut |values| survey_channel(part(values, opened, i), opened, i, number),
    )
}
