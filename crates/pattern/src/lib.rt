// Step 6: the pattern by which bits of a segment are dropped or repeated. The segment's n bits are read where they stand among the contents `src`:
// every step-th from `from` on, and fillers past the end. Each function writes the whole of `dst`.
#![tactic(auto)]

ghost use Rattle.std.specs.Prelude.{◌≡◌, true, false, ◌++◌, ◌-◌, ◌≤◌, ◌<◌, length, take, replicate};
ghost use Rattle.matching.specs.Signed.{signed_by};
ghost use Rattle.pattern.specs.Pattern.{matched, as_is, Segment};
ghost use Rattle.pattern.specs.Every.{every, Strided};

pub mod closed;
pub mod runs;

use crate::runs::{Stand, run_of};
use matching::shares::Change;

// Once the contents are read, whatever is still to be sent is a filler.
fn fill(dst: &mut [u8], from: usize)
    requires { from ≤ length dst.old }
    ensures { dst.new ≡ take from dst.old ++ replicate (length dst.old - from) 0 }
{
    dst[from..].fill(0);
}

// Bits side by side, and fillers behind them. `copy_from_slice` would have the archive ask for memmove, which a licensee need not have.
fn copy_beside(bits: &[u8], dst: &mut [u8])
    requires { length bits.now ≤ length dst.old }
    ensures { dst.new ≡ bits.now ++ replicate (length dst.old - length bits.now) 0 }
{
    for (i, b) in bits.iter().enumerate() {
        dst[i] = *b;
    }
    fill(dst, bits.len());
}

// Bits with a step between them.
fn copy_by(src: &[u8], from: usize, step: usize, dst: &mut [u8])
    requires { Strided step (length dst.old) (length src.now) }
    ensures { dst.new ≡ every 0 from step (length dst.old) src.now }
{
    let mut j = from;
    for x in dst.iter_mut() {
        if j < src.len() {
            *x = src[j];
            j += step;
        } else {
            *x = 0;
        }
    }
}

// d = 0: the bits as they are. Where they stand side by side the compiler copies many of them a turn.
fn copy(src: &[u8], from: usize, step: usize, dst: &mut [u8])
    requires { Strided step (length dst.old) (length src.now) }
    ensures { dst.new ≡ every 0 from step (length dst.old) src.now }
{
    if step == 1 {
        copy_beside(&src[from.min(src.len())..], dst);
    } else {
        copy_by(src, from, step, dst);
    }
}

// d < 0, m being |d|: e falls by 2m with each bit, and where it would not stay above 0 the bit is dropped and e grows by 2N. What this
// walk and that of repetition do with a bit has nothing in common: one loop for both would be these two, side by side in an `if`.
fn puncture(src: &[u8], n: usize, from: usize, step: usize, dst: &mut [u8], start: usize, m: usize)
    requires { Segment true m n (length dst.old) start × Strided step n (length src.now) × (0 < m) }
    ensures { dst.new ≡ matched as_is (signed_by true m) n start (every 0 from step n src.now) }
{
    let p = 2 * n;
    let q = 2 * m;
    let run = run_of(p, q);
    let mut s = Stand::first(start, from);
    while s.j < src.len() {
        if q < s.e {
            dst[s.k] = src[s.j];
            s.k += 1;
            s.e -= q;
        } else {
            s.e = s.e + p - q;
        }
        s = s.on(src, dst, step, q, run);
    }
    fill(dst, s.k);
}

// d > 0: each bit is sent as long as e would not stay above 0, e growing by 2N, and then once more, e falling by 2m.
fn repeat(src: &[u8], n: usize, from: usize, step: usize, dst: &mut [u8], start: usize, m: usize)
    requires { Segment false m n (length dst.old) start × Strided step n (length src.now) × (0 < m) }
    ensures { dst.new ≡ matched as_is (signed_by false m) n start (every 0 from step n src.now) }
{
    let p = 2 * n;
    let q = 2 * m;
    let run = run_of(p, q);
    let mut s = Stand::first(start, from);
    while s.j < src.len() {
        let bit = src[s.j];
        while s.e <= q {
            dst[s.k] = bit;
            s.k += 1;
            s.e += p;
        }
        dst[s.k] = bit;
        s.k += 1;
        s.e -= q;
        s = s.on(src, dst, step, q, run);
    }
    fill(dst, s.k);
}

// The segment's bits to `dst`, by d and the start e.
pub fn match_rate(
    src: &[u8],
    n: usize,
    from: usize,
    step: usize,
    dst: &mut [u8],
    e: usize,
    d: Change,
)
    requires { Segment d.less d.size n (length dst.old) e × Strided step n (length src.now) }
    ensures { dst.new ≡ matched as_is (signed_by d.less d.size) n e (every 0 from step n src.now) }
{
    let m = d.size as usize;
    if m == 0 {
        copy(src, from, step, dst);
    } else if d.less {
        puncture(src, n, from, step, dst, e, m);
    } else {
        repeat(src, n, from, step, dst, e, m);
    }
}
