// Steps 7 and 6 undone, channel after channel, out of multiplexed values.
ghost use Rattle.std.specs.Prelude.{◌≡◌, ◌+◌, ◌*◌, ◌%◌, ◌≤◌, ◌<◌, length};
ghost use Rattle.sheet.specs.Counts.{most_frames, most_encoded};
ghost use Rattle.sheet.specs.Sizes.{size_of, capacity_all, equalised_all};
ghost use Rattle.matching.specs.Shares.{share_of, channel_part};
ghost use Rattle.frame.specs.Walk.{Walks};
ghost use Rattle.homing.specs.Home.{taken_count};
ghost use Rattle.homing.specs.Taking.{home_in, hear_in, survey_in, taken_from};

use counters::FrameNumber;
use frame::walking::{Walk, walk_of};
use joining::filling::join_segment;
use joining::linking::{Link, link_segment};
use joining::{Heard, hearing};
use opening::Opened;
use sheet::sizes::frames;

// A channel's part of multiplexed values.
pub(crate) fn part<'a>(values: &'a [f32], opened: &Opened, i: usize) -> &'a [f32]
    requires { (length values.now ≡ capacity_all opened.now.fields) × (i < opened.now.fields.channels) }
    ensures { (result.now ≡ channel_part opened.now.fields i values.now) × (length result.now ≡ share_of opened.now.fields i) }
{
    let a = usize::from(opened.cuts[i]);
    let z = usize::from(opened.cuts[i + 1]);
    &values[a..z]
}

// The walk of channel i. N is not asked of a segment's length: of what the sheet says the compiler knows that 16 bits hold it, and divides in fewer.
fn walk(opened: &Opened, i: usize, number: FrameNumber) -> Walk
    requires { i < opened.now.fields.channels }
    ensures { Walks opened.now.fields number.0 i result }
{
    let n = u64::from(opened.sizes[i]);
    walk_of(
        &opened.fields,
        i,
        n,
        opened.share(i),
        opened.fields.tti[i],
        number,
    )
}

// The joined values of channel i's segment, out of its values as they were sent.
fn take_channel(values: &[f32], opened: &Opened, i: usize, number: FrameNumber, segment: &mut [f32])
    requires { (i < opened.now.fields.channels) × (length values.now ≡ share_of opened.now.fields i) × (length segment.old ≡ size_of opened.now.fields i) }
    ensures { segment.new ≡ home_in opened.now.fields number.0 i values.now }
{
    let w = walk(opened, i, number);
    join_segment(values, segment, w.e, w.d);
}

// What was heard of bit m, from 0, of channel i's segment.
pub fn hear_channel(
    values: &[f32],
    opened: &Opened,
    i: usize,
    number: FrameNumber,
    m: usize,
) -> Heard
    requires { (i < opened.now.fields.channels) × (length values.now ≡ share_of opened.now.fields i) × (m < size_of opened.now.fields i) }
    ensures { result ≡ hear_in opened.now.fields number.0 i m values.now }
{
    let w = walk(opened, i, number);
    hearing::hear_bit(values, w.n, w.e, w.d, m)
}

// The link record of channel i.
pub fn survey_channel(values: &[f32], opened: &Opened, i: usize, number: FrameNumber) -> Link
    requires { (i < opened.now.fields.channels) × (length values.now ≡ share_of opened.now.fields i) }
    ensures { result ≡ survey_in opened.now.fields number.0 i values.now }
{
    let w = walk(opened, i, number);
    link_segment(values, w.n, w.e, w.d)
}

// Where the frame's segment of `size` begins among the f of a channel.
fn segment_from(f: u64, size: usize, number: FrameNumber) -> usize
    requires { (0 < f) × (f ≤ most_frames) × (size ≤ most_encoded) }
    ensures { (result ≡ number.0 % f * size) × (result + size ≤ f * size) × (f * size ≤ most_frames * most_encoded) }
{
    number.within(f) * size
}

// Every channel's segment of this frame, into a buffer of all T_i.
pub fn take_segments(values: &[f32], opened: &Opened, number: FrameNumber, joined: &mut [f32])
    requires { (length values.now ≡ capacity_all opened.now.fields) × (length joined.old ≡ equalised_all opened.now.fields) }
    ensures { joined.new ≡ taken_from opened.now.fields number.0 values.now opened.now.fields.channels joined.old }
{
    let mut base: usize = 0;
    for i in 0..usize::from(opened.fields.channels) {
        let size = usize::from(opened.sizes[i]);
        let f = frames(opened.fields.tti[i]);
        let at = base + segment_from(f, size, number);
        let to = at + size;
        take_channel(
            part(values, opened, i),
            opened,
            i,
            number,
            &mut joined[at..to],
        );
        base += f as usize * size;
    }
}

// How many values those segments have: the sum of N.
pub fn count_taken(opened: &Opened) -> u64
    ensures { result ≡ taken_count opened.now.fields }
{
    let mut sum: u64 = 0;
    for i in 0..usize::from(opened.fields.channels) {
        sum += u64::from(opened.sizes[i]);
    }
    sum
}
