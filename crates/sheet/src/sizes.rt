// The sizes that a sheet's fields give.
ghost use Rattle.std.specs.Prelude.{◌≡◌, ℕ, ◌*◌, ◌≤◌, ◌<◌};
ghost use Rattle.sheet.specs.Counts.{most_channels, most_slots, most_codes, most_capacities, most_subframes, most_tti, most_frames, most_needed, longest_form};
ghost use Rattle.sheet.specs.Layout.{slot_width};
ghost use Rattle.sheet.specs.Fields.{phchs_of};
ghost use Rattle.sheet.specs.Sizes.{frames_in, segment_in, encoded_all, equalised_all, places_all, subframes_of, capacity_all, bits_needed, bytes_needed};
ghost use Rattle.sheet.specs.Numbers.{slot_load, load_of};
ghost use Rattle.sheet.specs.Range.{Ranged};

use crate::Sheet;
use crate::counts::CODES;
use crate::layout::{CAPACITY_WIDTH, CHANNEL_WIDTH, CODES_WIDTH, HEAD_WIDTH, LOG_WIDTH};

// What capacities come to: whether one of them is 0, and their sum. It is no Option: whoever walks an accepted sheet takes the sum, and would have to
// prove that it is there.
#[derive(Clone, Copy)]
pub struct Load {
    pub empty: bool,
    pub sum: u64,
}

// F of a TTI.
pub fn frames(tti: u16) -> u64
    requires { tti ≤ most_tti }
    ensures { (result ≡ frames_in tti) × (1 ≤ result) × (result ≤ most_frames) }
{
    1u64 << tti
}

// N of E and the TTI.
pub fn segment(e: u16, tti: u16) -> u64
    requires { tti ≤ most_tti }
    ensures { (result ≡ segment_in e (frames_in tti)) × (result ≤ e) }
{
    let f = frames(tti);
    if e == 0 {
        return 0;
    }
    (u64::from(e) - 1) / f + 1
}

// T_i = F x N.
pub fn equalised(e: u16, tti: u16) -> u64
    requires { tti ≤ most_tti }
    ensures { (result ≡ frames_in tti * segment_in e (frames_in tti)) × (result ≤ most_frames * 65535) }
{
    let f = frames(tti);
    let n = segment(e, tti);
    f * n
}

// The bits of a slot of p physical channels.
pub fn slot_width(up: u16, p: u16) -> usize
    requires { (up ≤ 1) × (p ≤ most_codes) }
    ensures { (result ≡ slot_width up p) × (result ≤ slot_width 1 most_codes) }
{
    CODES_WIDTH + (LOG_WIDTH * usize::from(up) + CAPACITY_WIDTH) * usize::from(p)
}

impl Sheet {
    // The sum of all E: the contents that a call is lent.
    pub fn all_encoded(&self) -> u64
        requires { self.now.channels ≤ most_channels }
        ensures { result ≡ encoded_all self.now }
    {
        let mut sum: u64 = 0;
        for i in 0..usize::from(self.channels) {
            sum += u64::from(self.e[i]);
        }
        sum
    }

    // The sum of all T_i.
    pub fn all_equalised(&self) -> u64
        requires { Ranged self.now }
        ensures { result ≡ equalised_all self.now }
    {
        let mut sum: u64 = 0;
        for i in 0..usize::from(self.channels) {
            sum += equalised(self.e[i], self.tti[i]);
        }
        sum
    }

    // What the capacities of slot t come to.
    pub fn slot_load(&self, t: usize) -> Load
        requires { (t < most_slots) × (phchs_of self.now t ≤ most_codes) }
        ensures { (result ≡ slot_load self.now.caps (most_codes * t) (phchs_of self.now t)) × (result.sum ≤ 65535 * phchs_of self.now t) }
    {
        let from = CODES * t;
        let mut empty = false;
        let mut sum: u64 = 0;
        for p in 0..usize::from(self.phchs[t]) {
            let u = self.caps[from + p];
            empty = empty | (u == 0);
            sum += u64::from(u);
        }
        Load { empty, sum }
    }

    // What the capacities of all slots come to.
    pub fn load(&self) -> Load
        requires { (self.now.slots ≤ most_slots) × ((t : ℕ) → t < self.now.slots → phchs_of self.now t ≤ most_codes) }
        ensures { (result ≡ load_of self.now) × (result.sum ≤ 65535 * most_capacities) }
    {
        let mut empty = false;
        let mut sum: u64 = 0;
        for t in 0..usize::from(self.slots) {
            let one = self.slot_load(t);
            empty = empty | one.empty;
            sum += one.sum;
        }
        Load { empty, sum }
    }

    // The sub-frames of a frame.
    pub fn subframes(&self) -> usize
        requires { Ranged self.now }
        ensures { (result ≡ subframes_of self.now) × (0 < result) × (result ≤ most_subframes) }
    {
        1 + usize::from(self.lcr)
    }

    // D, w being the places of a sub-frame.
    pub fn frame_places(&self, w: u64) -> u64
        requires { Ranged self.now × (w ≡ places_all self.now) }
        ensures { result ≡ capacity_all self.now }
    {
        self.subframes() as u64 * w
    }

    // The places of a sub-frame, d being those of the frame.
    pub fn subframe_places(&self, d: usize) -> usize
        requires { Ranged self.now × (d ≡ capacity_all self.now) }
        ensures { result ≡ places_all self.now }
    {
        if self.subframes() == 1 {
            return d;
        }
        d / 2
    }

    // The bits that the fields need.
    pub fn bits_needed(&self) -> usize
        requires { Ranged self.now }
        ensures { (result ≡ bits_needed self.now) × (result ≤ most_needed) }
    {
        let mut sum: usize = HEAD_WIDTH + CHANNEL_WIDTH * usize::from(self.channels);
        for t in 0..usize::from(self.slots) {
            sum += slot_width(self.uplink, self.phchs[t]);
        }
        sum
    }

    // The bytes that the fields need.
    pub fn bytes_needed(&self) -> usize
        requires { Ranged self.now }
        ensures { (result ≡ bytes_needed self.now) × (result ≤ longest_form) }
    {
        (self.bits_needed() + 7) / 8
    }
}
