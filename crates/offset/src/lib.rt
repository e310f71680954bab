// Step 5: where the pattern of step 6 starts in each frame of a TTI. Signed numbers go by sign and magnitude, so that no floor of a
// negative number is in the code.
#![tactic(auto)]

ghost use Rattle.std.specs.Prelude.{◌≡◌, ℕ, ◌+◌, ◌*◌, ◌%◌, ◌^◌, ◌≤◌, ◌<◌, get_or};
ghost use Rattle.sheet.specs.Counts.{most_bits, most_tti, most_frames};
ghost use Rattle.sheet.specs.Sizes.{frames_in};
ghost use Rattle.matching.specs.Signed.{signed_by};
ghost use Rattle.offset.specs.Offset.{remainder_of, q_of, gcd, added_of, y_of, filled, S, start_of};

use counters::FrameNumber;
use matching::shares::Change;
use sheet::counts::FRAMES;
use sheet::sizes::frames;

// The greatest common divisor, b being a power of two: two to the lesser of the trailing zeros.
fn common(a: u64, b: u64) -> u64
    requires { (k : ℕ) × (b ≡ 2 ^ k) }
    ensures { result ≡ gcd a b }
{
    let of_a = a.trailing_zeros();
    let of_b = b.trailing_zeros();
    let lesser = of_a.min(of_b);
    1u64 << lesser
}

// What q' is more than q, times F.
#[tactic(auto, unfolding(crate::specs::Offset::added_of))]
fn added(a: u64, f: u64) -> u64
    requires { (tti : ℕ) × (f ≡ frames_in tti) }
    ensures { result ≡ added_of a f }
{
    if a % 2 == 0 { common(a, f) } else { 0 }
}

// R = d mod N.
#[tactic(auto, using(crate::proofs::QuotientLaws::r_neg), unfolding(crate::specs::Offset::remainder_of, crate::specs::Ints::mod_over))]
fn remainder(d: Change, n: u64) -> u64
    requires { (0 < n) × (0 < d.size) }
    ensures { (result ≡ remainder_of (signed_by d.less d.size) n) × (result < n) }
{
    if d.less {
        n - 1 - (d.size - 1) % n
    } else {
        d.size % n
    }
}

// q of N and R; below 0 where it is `less`.
#[tactic(auto, using(crate::proofs::QuotientLaws::q_up, crate::proofs::QuotientLaws::q_down, crate::proofs::QuotientLaws::q_down_pos))]
fn quotient(n: u64, r: u64) -> Change
    requires { (r < n) × (n ≤ 16384) }
    ensures { (signed_by result.less result.size ≡ q_of n r) × (0 < result.size) × (result.size ≤ n) }
{
    if r != 0 && 2 * r <= n {
        return Change {
            less: false,
            size: (n - 1) / r + 1,
        };
    }
    Change {
        less: true,
        size: n / (n - r),
    }
}

// y of x: x|q| less or more the whole part of x g/F, g being what q' is more than q, times F.
#[tactic(auto, using(crate::proofs::QuotientLaws::y_pos, crate::proofs::QuotientLaws::y_neg, crate::proofs::QuotientLaws::added_le, crate::proofs::QuotientLaws::whole_le))]
fn distance(q: Change, f: u64, g: u64, x: u64) -> u64
    requires { (0 < f) × (f ≤ most_frames) × (x < most_frames) × (0 < q.size) × (q.size ≤ 16384) × (g ≡ added_of q.size f) }
    ensures { (result ≡ y_of (signed_by q.less q.size) f x) × (result ≤ most_frames * 16384) }
{
    let whole = x * q.size;
    let part = x * g / f;
    if q.less { whole - part } else { whole + part }
}

// S of each column.
fn offsets(q: Change, f: u64) -> [u64; FRAMES]
    requires { (0 < f) × (f ≤ most_frames) × (0 < q.size) × (q.size ≤ 16384) × ((tti : ℕ) × (f ≡ frames_in tti)) }
    ensures { (result ≡ filled (signed_by q.less q.size) f f) × ((i : ℕ) → get_or result i 0 ≤ most_frames * 16384) }
{
    let g = added(q.size, f);
    let mut s = [0u64; FRAMES];
    for x in 0..f {
        let y = distance(q, f, g, x);
        let c = (y % f) as usize;
        s[c] = y / f;
    }
    s
}

// S of each column, for d not 0: what a record of a channel may keep.
#[tactic(auto, unfolding(crate::specs::Offset::S))]
pub fn kept(n: u64, d: Change, tti: u16) -> [u64; FRAMES]
    requires { (0 < n) × (n ≤ 16384) × (0 < d.size) × (tti ≤ most_tti) }
    ensures { ((c : ℕ) → get_or result c 0 ≡ S (q_of n (remainder_of (signed_by d.less d.size) n)) (frames_in tti) c) × ((i : ℕ) → get_or result i 0 ≤ most_frames * 16384) }
{
    let f = frames(tti);
    let q = quotient(n, remainder(d, n));
    offsets(q, f)
}

// The start e of a pattern, from S of the frame's column; m is the magnitude of d.
#[tactic(auto, using(crate::proofs::KeptLaws::wide_product))]
pub fn start_from(at: u64, n: u64, m: u64) -> u64
    requires { (0 < n) × (n ≤ 16384) × (m ≤ most_bits) × (at ≤ 4294967295) }
    ensures { result ≡ (2 * at * m + 1) % (2 * n) }
{
    (2 * at * m + 1) % (2 * n)
}

// The start e of a channel's pattern in a frame, for d not 0.
pub fn start(n: u64, d: Change, tti: u16, frame: FrameNumber) -> u64
    requires { (0 < n) × (n ≤ 16384) × (0 < d.size) × (d.size ≤ 60000) × (tti ≤ most_tti) }
    ensures { (result ≡ start_of n (signed_by d.less d.size) tti frame.0) × (0 < result) × (result < 2 * n) }
{
    let s = kept(n, d, tti);
    let k = frame.within(frames(tti));
    let p = orders::column(usize::from(tti), k);
    let at = s[p];
    start_from(at, n, d.size)
}
