// Steps 9 and 8: which index of the multiplexed frame stands at a place. Sub-frames, slots and physical channels are counted from 0 where they are indices.
ghost use Rattle.std.specs.Prelude.{◌≡◌, ◌*◌, ◌≤◌, ◌<◌};
ghost use Rattle.sheet.specs.Counts.{most_codes};
ghost use Rattle.sheet.specs.Fields.{phchs_of, capacity_of};
ghost use Rattle.sheet.specs.Sizes.{slot_capacity, subframes_of, capacity_all};
ghost use Rattle.sheet.specs.Range.{Ranged, Accepted};
ghost use Rattle.frame.specs.Frame.{slot_start};
ghost use Rattle.naming.specs.Name.{slot_bit_at, read_from, multiplexed_at, Exists};

use crate::Place;
use frame::spreading::runs_at;
use interleaving::second::source_at;
use mapping::bit_at;
use opening::Opened;
use sheet::Sheet;
use sheet::counts::CODES;

// How many places slot t has. A slot's one capacity is its sum.
#[tactic(auto, using(crate::proofs::PlacingLaws::one_size))]
fn slot_size(fields: &Sheet, t: usize) -> u64
    requires { Ranged fields.now × (t < fields.now.slots) }
    ensures { (result ≡ slot_capacity fields.now t) × (result ≤ 65535 * most_codes) }
{
    if fields.phchs[t] == 1 {
        return u64::from(fields.caps[CODES * t]);
    }
    fields.slot_load(t).sum
}

// Where slot t begins.
#[tactic(auto, using(laws::proofs::SumLaws::sum_more), unfolding(laws::specs::Sums::sum_to))]
fn slot_start(fields: &Sheet, t: usize) -> u64
    requires { Ranged fields.now × (t ≤ fields.now.slots) }
    ensures { result ≡ slot_start fields.now t }
{
    let mut sum: u64 = 0;
    for k in 0..t {
        sum += slot_size(fields, k);
    }
    sum
}

// Step 9: the slot's bit at a place.
fn slot_bit(fields: &Sheet, t: usize, p: usize, place: usize) -> u64
    requires { Accepted fields.now × (t < fields.now.slots) × (p < phchs_of fields.now t) × (0 < place) × (place ≤ capacity_of fields.now t p) }
    ensures { (result ≡ slot_bit_at fields.now t p place) × (result < slot_capacity fields.now t) }
{
    let from = CODES * t;
    let to = from + usize::from(fields.phchs[t]);
    let runs = runs_at(fields, t);
    bit_at(&fields.caps[from..to], runs, p, place) as u64
}

// Step 8: from where the slot's bit k of sub-frame h is read.
fn read_at(opened: &Opened, h: u64, t: usize, k: u64) -> u64
    requires { (h < subframes_of opened.now.fields) × (t < opened.now.fields.slots) × (k < slot_capacity opened.now.fields t) }
    ensures { (result ≡ read_from opened.now.fields h t k) × (result < capacity_all opened.now.fields) }
{
    let start = slot_start(&opened.fields, t);
    if opened.fields.mode == 0 {
        let d = opened.capacity();
        let w = opened.fields.subframe_places(d as usize) as u64;
        return source_at(d, h * w + start + k);
    }
    let c = slot_size(&opened.fields, t);
    let all = opened.fields.subframes() as u64;
    all * start + source_at(all * c, h * c + k)
}

impl Place {
    // The index of the multiplexed frame that stands at the place.
    #[tactic(auto, unfolding(crate::specs::Name::multiplexed_at))]
    pub fn index(self, opened: &Opened) -> u64
        requires { Exists opened.now.fields self.subframe self.slot self.phch.0 self.place }
        ensures { (result ≡ multiplexed_at opened.now.fields self.subframe self.slot self.phch.0 self.place) × (result < capacity_all opened.now.fields) }
    {
        let h = u64::from(self.subframe - 1);
        let t = (self.slot - 1) as usize;
        let p = self.phch.index();
        let k = slot_bit(&opened.fields, t, p, self.place as usize);
        read_at(opened, h, t, k)
    }
}
