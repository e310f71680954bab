// The copies of one bit, joined.
ghost use Rattle.std.specs.Prelude.{◌≡◌, [], ◌+◌, ◌≤◌, ◌<◌, length, take, drop, get_or};
ghost use Rattle.matching.specs.Signed.{signed_by};
ghost use Rattle.pattern.specs.Pattern.{shared, Segment};
ghost use Rattle.pattern.specs.Closed.{sent_before};
ghost use Rattle.joining.specs.Joining.{join_of};

use crate::Heard;
use crate::clipping::clip_heard;
use crate::walking::hear_sent;
use matching::shares::Change;

// The copies of a bit stand at from, from + 1, ..: they are heard as by an e that goes from 1 by 1.
pub fn hear_at(values: &[f32], from: usize, copies: usize) -> Heard
    requires { from + copies ≤ length values.now }
    ensures { result ≡ join_of (take copies (drop from values.now)) }
{
    if copies == 0 {
        return Heard::Nothing;
    }
    let t = hear_sent(values, from, 1, copies - 1, 1);
    clip_heard(t.heard)
}

// How many of the v values sent of a segment of n bits belong to the bits before `bit`, without a walk.
fn sent_before(v: usize, n: usize, e: usize, d: Change, bit: usize) -> usize
    requires { Segment d.less d.size n v e × (bit ≤ n) }
    ensures { result ≡ sent_before (signed_by d.less d.size) n e bit }
{
    let m = d.size as usize;
    if m == 0 {
        return bit;
    }
    let p = 2 * n;
    let c = (2 * m * bit + p - e) / p;
    if d.less { bit - c } else { bit + c }
}

// What was heard of one bit, from 0, of a segment of n bits; `values` are those sent of the segment, in order.
pub fn hear_bit(values: &[f32], n: usize, e: usize, d: Change, bit: usize) -> Heard
    requires { Segment d.less d.size n (length values.now) e × (bit < n) }
    ensures { result ≡ join_of (get_or (shared (signed_by d.less d.size) n e values.now) bit []) }
{
    let v = values.len();
    let from = sent_before(v, n, e, d, bit);
    let to = sent_before(v, n, e, d, bit + 1);
    hear_at(values, from, to - from)
}
