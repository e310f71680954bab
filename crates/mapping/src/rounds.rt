// Steps 8 and 9 of a slot of three PhCHs of one capacity that step 8 interleaves by itself: column after column, each bit to the PhCH whose turn it is,
// as in the loop of document 004. Where the next three go is kept, so that no turn of step 8 is looked for and none is gone through twice
// (docs/SPEED.md).
ghost use Rattle.std.specs.Prelude.{◌≡◌, ◌+◌, ◌<◌, ◌≤◌, true, length, slice_index, slice_set};
ghost use Rattle.sheet.specs.Counts.{most_bits};
ghost use Rattle.interleaving.specs.Second.{second_interleaved};
ghost use Rattle.mapping.specs.Mapping.{ones, slot_of, Slot};
ghost use Rattle.mapping.specs.Rounds.{handed_on, Threefold, Handed, Facing, ColumnCarried};

use crate::capacity;
use crate::lines::lone_from;

// Bit k of the slot goes to place a, the next to b and the one after to c, if there are such bits; the next bit of each of these PhCHs goes wa, wb or wc
// further, modulo 2^64. The compiler drops k, which the proof counts by.
#[derive(Clone, Copy)]
pub struct Hands {
    pub k: usize,
    pub a: usize,
    pub b: usize,
    pub c: usize,
    pub wa: usize,
    pub wb: usize,
    pub wc: usize,
}

// Whether a slot has three PhCHs of one capacity.
pub fn is_threefold(caps: &[u16]) -> bool
    ensures { result ≡ true → Threefold caps.now }
{
    if caps.len() != 3 {
        return false;
    }
    let first = capacity(caps, 0);
    if capacity(caps, 1) != first {
        return false;
    }
    capacity(caps, 2) == first
}

// Puts the next bit, which stands at `from`.
fn put_next(bits: &[u8], from: usize, h: Hands, frame: &mut [u8]) -> Hands
    requires { (from < length bits.now) × (h.a < length frame.old) × (h.k + 1 < 18446744073709551616) }
    ensures { (result ≡ handed_on h) × (frame.new ≡ slice_set frame.old h.a (slice_index bits.now from)) }
{
    let to = h.a;
    frame[to] = bits[from];
    Hands {
        k: h.k + 1,
        a: h.b,
        b: h.c,
        c: std::num::wrapping_add_usize(h.a, h.wa),
        wa: h.wb,
        wb: h.wc,
        wc: h.wa,
    }
}

// Puts element c of the bits and every 30th behind it. Of the capacities nothing is read here: the contract needs them. A `for` knows how many there
// are, of which the compiler makes vectors (docs/SPEED.md).
fn put_ones(bits: &[u8], caps: &[u16], c: usize, h: Hands, frame: &mut [u8]) -> Hands
    requires { Facing caps.now (length bits.now) (length frame.old) c h }
    ensures { ColumnCarried caps.now bits.now c h frame.old result frame.new }
{
    let mut from = c;
    let mut g = h;
    while from < bits.len() {
        g = put_next(bits, from, g, frame);
        from += 30;
    }
    g
}

// The same by threes, as long as there are three. The sum modulo 2^64 keeps the compiler from making vectors, for which columns are too short.
fn put_column(bits: &[u8], caps: &[u16], c: usize, h: Hands, frame: &mut [u8]) -> Hands
    requires { Facing caps.now (length bits.now) (length frame.old) c h }
    ensures { ColumnCarried caps.now bits.now c h frame.old result frame.new }
{
    let last = lone_from(60, bits.len());
    let mut from = c;
    let mut g = h;
    while from < last {
        g = put_next(bits, from, g, frame);
        g = put_next(bits, from + 30, g, frame);
        g = put_next(bits, from + 60, g, frame);
        from = std::num::wrapping_add_usize(from, 90);
    }
    put_ones(bits, caps, from, g, frame)
}

// Before the slot's first bit, where each PhCH has u places: the first and the third fill from their first place up, the second from its last down.
fn start(caps: &[u16], u: usize) -> Hands
    requires { Threefold caps.now × (u ≡ slice_index caps.now 0) × (u < 65536) }
    ensures { (result.k ≡ 0) × Handed caps.now result }
{
    Hands {
        k: 0,
        a: 0,
        b: 2 * u - u.min(1),
        c: 2 * u,
        wa: 1,
        wb: std::num::wrapping_sub_usize(0, 1),
        wc: 1,
    }
}

// Maps the bits of such a slot.
pub fn map_threefold(bits: &[u8], caps: &[u16], frame: &mut [u8])
    requires { Threefold caps.now × Slot caps.now (length bits.now) (length frame.old) × (length bits.now ≤ most_bits) }
    ensures { frame.new ≡ slot_of ones caps.now (second_interleaved bits.now) frame.old }
{
    let mut h = start(caps, capacity(caps, 0));
    for c in &orders::columns() {
        h = put_column(bits, caps, usize::from(*c), h, frame);
    }
}
