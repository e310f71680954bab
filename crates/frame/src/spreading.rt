// Steps 8 and 9: the multiplexed bits interleaved, and mapped slot after slot.
ghost use Rattle.std.specs.Prelude.{◌≡◌, ◌-◌, ◌≤◌, ◌<◌, length};
ghost use Rattle.sheet.specs.Counts.{most_subframes, most_bits};
ghost use Rattle.sheet.specs.Sizes.{places_all, subframes_of, capacity_all};
ghost use Rattle.sheet.specs.Range.{Accepted};
ghost use Rattle.frame.specs.Frame.{spread_subframe, spread};
ghost use Rattle.frame.specs.Slots.{Spanned, Spans, block_of, RunsAt};

use mapping::{Runs, runs_of};
use sheet::Sheet;
use sheet::counts::{CODES, PAIRED};

// A slot: its capacities stand from `from` up to `to` in the array of all, its part of the frame ends at `end`, and slot `next` comes after it.
#[derive(Clone, Copy)]
pub struct Span {
    pub from: usize,
    pub to: usize,
    pub end: usize,
    pub next: usize,
}

// Of slot t, whose part begins at a and ends at `most` or before.
pub fn span_of(fields: &Sheet, t: usize, a: usize, most: usize) -> Span
    requires { Spanned fields.now.phchs fields.now.caps t a most }
    ensures { Spans fields.now.phchs fields.now.caps t a most result }
{
    let from = CODES * t;
    let to = from + usize::from(fields.phchs[t]);
    let end = a + fields.slot_load(t).sum as usize;
    Span {
        from,
        to,
        end,
        next: t + 1,
    }
}

// What step 8 interleaves together with a slot's bits: it stands from `from` up to `to` among the multiplexed ones. Interleaved, it has those of the
// slot from its index `at` on.
#[derive(Clone, Copy)]
pub struct Block {
    pub from: usize,
    pub to: usize,
    pub at: usize,
}

// Of sub-frame h of k, which have w places each; the slot's are from a to e.
#[tactic(auto, unfolding(crate::specs::Slots::block_of))]
pub fn block_of(mode: u16, k: usize, h: usize, w: usize, a: usize, e: usize) -> Block
    requires { (k ≤ most_subframes) × (h < k) × (w ≤ most_bits) × (a ≤ e) × (e ≤ w) }
    ensures { result ≡ block_of mode k h w a (e - a) }
{
    if mode == 0 {
        let to = k * w;
        let at = h * w + a;
        return Block { from: 0, to, at };
    }
    let from = k * a;
    let to = k * e;
    let at = h * (e - a);
    Block { from, to, at }
}

// How many bits each physical channel of slot t takes at its turn. In downlink no array is read.
pub fn runs_at(fields: &Sheet, t: usize) -> Runs
    requires { Accepted fields.now × (t < fields.now.slots) }
    ensures { RunsAt fields.now t result }
{
    if fields.uplink == 0 {
        return Runs { first: 1, other: 1 };
    }
    if usize::from(fields.phchs[t]) != PAIRED {
        return Runs { first: 1, other: 1 };
    }
    runs_of(fields.logs[PAIRED * t], fields.logs[PAIRED * t + 1])
}

// Steps 8 and 9 of sub-frame h, slot after slot.
fn spread_subframe(bits: &[u8], fields: &Sheet, h: usize, out: &mut [u8])
    requires { Accepted fields.now × (h < subframes_of fields.now) × (length bits.now ≡ capacity_all fields.now) × (length out.old ≡ places_all fields.now) }
    ensures { out.new ≡ spread_subframe fields.now h bits.now }
{
    let w = out.len();
    let k = fields.subframes();
    let mut a: usize = 0;
    for t in 0..usize::from(fields.slots) {
        let s = span_of(fields, t, a, w);
        let b = block_of(fields.mode, k, h, w, a, s.end);
        mapping::map_slot(
            &bits[b.from..b.to],
            b.at,
            &fields.caps[s.from..s.to],
            runs_at(fields, t),
            &mut out[a..s.end],
        );
        a = s.end;
    }
}

// Steps 8 and 9: the frame of multiplexed bits, sub-frame after sub-frame. Not by chunks_exact_mut: once its loans are back, a proof knows how long the
// frame is, and none of its bits.
pub fn spread_bits(bits: &[u8], fields: &Sheet, out: &mut [u8])
    requires { Accepted fields.now × (length bits.now ≡ capacity_all fields.now) × (length out.old ≡ capacity_all fields.now) }
    ensures { out.new ≡ spread fields.now bits.now }
{
    let k = fields.subframes();
    let w = fields.subframe_places(out.len());
    let mut a: usize = 0;
    for h in 0..k {
        let e = a + w;
        spread_subframe(bits, fields, h, &mut out[a..e]);
        a = e;
    }
}
