// A segment of joined values, from the values that were sent of it.
ghost use Rattle.std.specs.Prelude.{◌≡◌, map, ◌+◌, ◌*◌, ◌^◌, ◌≤◌, ◌<◌, length};
ghost use Rattle.matching.specs.Signed.{signed_by};
ghost use Rattle.pattern.specs.Pattern.{Segment};
ghost use Rattle.joining.specs.Joining.{clipped, value_of, home_of, Clips};

use crate::Heard;
use crate::clipping::clip;
use crate::walking::hear_next;
use matching::shares::Change;
use pattern::runs::run_of;

// The value that a bit gets of what was heard of it.
fn value(h: Heard) -> f32
    ensures { result ≡ value_of h }
{
    match h {
        Heard::Nothing => 0.0,
        Heard::Once(v) => v,
        Heard::Joined(v, _) => v,
    }
}

// d = 0: each bit was heard once.
fn copy_values(values: &[f32], segment: &mut [f32])
    requires { length segment.old ≡ length values.now }
    ensures { segment.new ≡ map clipped values.now }
{
    for (i, x) in segment.iter_mut().enumerate() {
        *x = clip(values[i]);
    }
}

// Four values. All are read before the first is written, so that the compiler takes the four at once; of an array that is copied it asks first
// whether it overlaps the segment.
fn copy_four(values: &[f32], k: usize, segment: &mut [f32], i: usize)
    requires { (k + 3 < length values.now) × (i + 3 < length segment.old) }
    ensures { Clips values.now segment.old segment.new k i 4 }
{
    let a = clip(values[k]);
    let b = clip(values[k + 1]);
    let c = clip(values[k + 2]);
    let d = clip(values[k + 3]);
    segment[i] = a;
    segment[i + 1] = b;
    segment[i + 2] = c;
    segment[i + 3] = d;
}

// So many values, by fours. The up to three that come too much are written over by what follows. With the copy of bits it shares the loop
// alone: one for both would take what is done to a value as a closure.
fn copy_run(values: &[f32], k: usize, segment: &mut [f32], i: usize, count: usize)
    requires { (k + count + 3 ≤ length values.now) × (i + count + 3 ≤ length segment.old) }
    ensures { Clips values.now segment.old segment.new k i count }
{
    for done in (0..count).step_by(4) {
        copy_four(values, k + done, segment, i + done);
    }
}

// d is not 0: each bit gets the sum of its next copies. After one that is dropped or repeated comes a run of bits with one copy each, copied by
// fours where it is worth it, and at times one such bit more.
fn fill(values: &[f32], segment: &mut [f32], start: usize, d: Change)
    requires { Segment d.less d.size (length segment.old) (length values.now) start × (0 < d.size) }
    ensures { segment.new ≡ home_of (signed_by d.less d.size) (length segment.old) start values.now }
{
    let p = 2 * segment.len();
    let q = 2 * d.size as usize;
    let run = run_of(p, q);
    let fall = run * q;
    let reach = run + 3;
    let mut e = start;
    let mut k: usize = 0;
    let mut i: usize = 0;
    while i < segment.len() {
        let t = hear_next(values, k, d.less, p, q, e);
        segment[i] = clip(value(t.heard));
        e = t.e;
        k = t.next;
        i += 1;
        if 1 < run && fall < e && i + reach < segment.len() && k + reach < values.len() {
            copy_run(values, k, segment, i, run);
            e -= fall;
            k += run;
            i += run;
            if q < e {
                segment[i] = clip(values[k]);
                e -= q;
                k += 1;
                i += 1;
            }
        }
    }
}

// The joined values of a segment, all of it, by d and the start e; `values` are those sent, in order.
pub fn join_segment(values: &[f32], segment: &mut [f32], e: usize, d: Change)
    requires { Segment d.less d.size (length segment.old) (length values.now) e }
    ensures { segment.new ≡ home_of (signed_by d.less d.size) (length segment.old) e values.now }
{
    if d.size == 0 {
        copy_values(values, segment);
    } else {
        fill(values, segment, e, d);
    }
}
