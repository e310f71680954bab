// A sheet opened once: its fields, and the numbers that every frame needs of them.
#![tactic(auto)]

ghost use Rattle.std.specs.Prelude.{◌≡◌, ◌≤◌, ◌<◌};
ghost use Rattle.sheet.specs.Counts.{most_bits};
ghost use Rattle.sheet.specs.Sizes.{capacity_all};
ghost use Rattle.sheet.specs.Range.{Ranged, Accepted};
ghost use Rattle.matching.specs.Shares.{cuts_of, share_of, channel_of};
ghost use Rattle.opening.specs.Opened.{sizes_of};

pub mod lending;

pub use lending::{open_sheet, with_sheet};
use sheet::Sheet;
use sheet::counts::CHANNELS;
use sheet::sizes::segment;

// The fields of an accepted sheet; N of each channel, 0 past I; Z_0 to Z_I, 0 past them. N is at most E and Z at most D, so that 16 bits hold each.
#[derive(Clone, Copy)]
pub struct Opened {
    pub fields: Sheet,
    pub sizes: [u16; CHANNELS],
    pub cuts: [u16; CHANNELS + 1],
    pub ghost accepted: { Accepted fields },
    pub ghost sizes_own: { sizes ≡ sizes_of fields },
    pub ghost cuts_own: { cuts ≡ cuts_of fields },
}

// N of each channel, 0 past I.
fn sizes(fields: &Sheet) -> [u16; CHANNELS]
    requires { Ranged fields.now }
    ensures { result ≡ sizes_of fields.now }
{
    let mut all = [0u16; CHANNELS];
    for i in 0..usize::from(fields.channels) {
        all[i] = segment(fields.e[i], fields.tti[i]) as u16;
    }
    all
}

impl Opened {
    // D, which the last Z is.
    pub fn capacity(&self) -> u64
        ensures { (result ≡ capacity_all self.now.fields) × (result ≤ most_bits) }
    {
        u64::from(self.cuts[usize::from(self.fields.channels)])
    }

    // V of channel i, counted from 0.
    pub fn share(&self, i: usize) -> u64
        requires { i < self.now.fields.channels }
        ensures { result ≡ share_of self.now.fields i }
    {
        u64::from(self.cuts[i + 1] - self.cuts[i])
    }

    // Step 7: the channel, counted from 0, in whose part index x of the multiplexed frame lies.
    pub fn channel_at(&self, x: u64) -> usize
        requires { x < capacity_all self.now.fields }
        ensures { (result ≡ channel_of self.now.fields x) × (result < self.now.fields.channels) }
    {
        for i in 0..usize::from(self.fields.channels) {
            if x < u64::from(self.cuts[i + 1]) {
                return i;
            }
        }
        unreachable!()
    }
}
