// Step 6 at one bit, for a walk over values that were sent.
ghost use Rattle.std.specs.Prelude.{◌≡◌, false, ◌+◌, ◌*◌, ◌^◌, ◌≤◌, ◌<◌, length, take, drop};
ghost use Rattle.laws.specs.Sums.{sum_to};
ghost use Rattle.pattern.specs.Pattern.{copies_at, after, copies_from, Stands};
ghost use Rattle.joining.specs.Joining.{raw_of, Sent, FourSent};

use crate::Heard;

// What was heard of the bit, not yet clipped, where the copies of the next bit begin, and e as that bit finds it.
#[derive(Clone, Copy)]
pub struct Step {
    pub heard: Heard,
    pub next: usize,
    pub e: usize,
}

// Of a bit that was sent: its copies begin at k and are added in order, from the first of them on. p is 2N and q is 2|d|. It reads before it
// asks, which is faster for a walk that only looks at the values. What was heard fits an f32, as the order of magnitudes needs.
pub fn hear_sent(values: &[f32], k: usize, p: usize, q: usize, start: usize) -> Step
    requires { Stands false p q start × (p + q < 2 ^ 64) × (k + copies_at false p q start ≤ length values.now) }
    ensures { Sent p q values.now start k result.heard result.next result.e }
{
    let mut sum = values[k];
    let mut next = k + 1;
    if q < start {
        return Step {
            heard: Heard::Once(sum),
            next,
            e: start - q,
        };
    }
    let mut e = start;
    while e <= q {
        sum = sum + values[next];
        next += 1;
        e += p;
    }
    Step {
        heard: Heard::Joined(sum, next - k),
        next,
        e: e - q,
    }
}

// Of four bits that were sent.
#[derive(Clone, Copy)]
pub struct Four {
    pub f: Heard,
    pub g: Heard,
    pub h: Heard,
    pub j: Heard,
    pub next: usize,
    pub e: usize,
}

// Where e stands above four falls, each of the four has one copy, and the compiler reads them at once.
pub fn hear_four(values: &[f32], k: usize, p: usize, q: usize, start: usize) -> Four
    requires { Stands false p q start × (p + q < 2 ^ 64) × (4 * q < 2 ^ 64) × (k + sum_to (copies_from false p q start) 4 ≤ length values.now) }
    ensures { FourSent p q values.now start k result.f result.g result.h result.j result.next result.e }
{
    let four = 4 * q;
    if four < start {
        return Four {
            f: Heard::Once(values[k]),
            g: Heard::Once(values[k + 1]),
            h: Heard::Once(values[k + 2]),
            j: Heard::Once(values[k + 3]),
            next: k + 4,
            e: start - four,
        };
    }
    let s = hear_sent(values, k, p, q, start);
    let t = hear_sent(values, s.next, p, q, s.e);
    let u = hear_sent(values, t.next, p, q, t.e);
    let v = hear_sent(values, u.next, p, q, u.e);
    Four {
        f: s.heard,
        g: t.heard,
        h: u.heard,
        j: v.heard,
        next: v.next,
        e: v.e,
    }
}

// Of any bit.
pub fn hear_next(values: &[f32], k: usize, less: bool, p: usize, q: usize, start: usize) -> Step
    requires { Stands less p q start × (p + q < 2 ^ 64) × (k + copies_at less p q start ≤ length values.now) }
    ensures { (result.heard ≡ raw_of (take (copies_at less p q start) (drop k values.now))) × (result.next ≡ k + copies_at less p q start) × (result.e ≡ after less p q start) }
{
    if less {
        if q < start {
            return Step {
                heard: Heard::Once(values[k]),
                next: k + 1,
                e: start - q,
            };
        }
        return Step {
            heard: Heard::Nothing,
            next: k,
            e: start + p - q,
        };
    }
    hear_sent(values, k, p, q, start)
}
