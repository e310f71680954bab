// The name of a place: which copy of which bit of which channel stands there, by direct calculation.
#![tactic(auto)]

ghost use Rattle.std.specs.Prelude.{◌≡◌, ◌+◌, ◌*◌, ◌%◌, ◌≤◌, ◌<◌};
ghost use Rattle.sheet.specs.Counts.{most_tti, most_encoded};
ghost use Rattle.sheet.specs.Sizes.{frames_in, capacity_all};
ghost use Rattle.orders.specs.Orders.{column_at};
ghost use Rattle.naming.specs.Name.{name_at, name_of, name_in, Exists};

use counters::{BitNumber, FrameNumber, PhchNumber, TrchNumber};
use frame::walking::walk_of;
use opening::Opened;
use pattern::closed::sent_at;
use sheet::sizes::frames;

pub mod existing;
pub mod placing;

// A sub-frame, a slot in it, a physical channel in that and a place in that, each counted from 1.
#[derive(Clone, Copy)]
pub struct Place {
    pub subframe: u32,
    pub slot: u32,
    pub phch: PhchNumber,
    pub place: u32,
}

// The channel, the number of its bit before step 2, and the number of the copy, from 0.
#[derive(Clone, Copy)]
pub struct PlaceName {
    pub trch: TrchNumber,
    pub bit: BitNumber,
    pub copy: u64,
}

// Steps 3 and 2: the number of bit m, from 0, of the frame's segment, which stands in row m of column P(n).
fn bit_number(tti: u16, frame: FrameNumber, m: u64) -> BitNumber
    requires { (tti ≤ most_tti) × (m < most_encoded) }
    ensures { result.0 ≡ m * frames_in tti + column_at tti (frame.0 % frames_in tti) + 1 }
{
    let f = frames(tti);
    let p = orders::column(usize::from(tti), frame.within(f));
    BitNumber((m * f + p as u64 + 1) as u32)
}

// Steps 7 to 2: the name of what stands at index x of the multiplexed frame.
fn name_at(opened: &Opened, frame: FrameNumber, x: u64) -> PlaceName
    requires { x < capacity_all opened.now.fields }
    ensures { name_in result ≡ name_at opened.now.fields frame.0 x }
{
    let i = opened.channel_at(x);
    let tti = opened.fields.tti[i];
    let n = u64::from(opened.sizes[i]);
    let low = u64::from(opened.cuts[i]);
    let v = opened.share(i);
    let w = walk_of(&opened.fields, i, n, v, tti, frame);
    let s = sent_at(n, v, w.e as u64, w.d, x - low);
    let trch = TrchNumber::at(i);
    let bit = bit_number(tti, frame, s.bit);
    PlaceName {
        trch,
        bit,
        copy: s.copy,
    }
}

impl Place {
    // The name of a place that exists.
    #[tactic(auto, unfolding(crate::specs::Name::name_of))]
    pub fn name(self, opened: &Opened, frame: FrameNumber) -> PlaceName
        requires { Exists opened.now.fields self.subframe self.slot self.phch.0 self.place }
        ensures { name_in result ≡ name_of opened.now.fields frame.0 self.subframe self.slot self.phch.0 self.place }
    {
        let x = self.index(opened);
        name_at(opened, frame, x)
    }
}
