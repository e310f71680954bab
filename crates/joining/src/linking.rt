// The link record of a segment.
ghost use Rattle.std.specs.Prelude.{◌≡◌, false, [], ◌+◌, ◌*◌, ◌^◌, ◌<◌, length};
ghost use Rattle.matching.specs.Signed.{signed_by};
ghost use Rattle.pattern.specs.Pattern.{Stands, Segment};
ghost use Rattle.joining.specs.Joining.{clipped, clipped_of, heard_of};
ghost use Rattle.joining.specs.Linked.{magnitude_of, link_of, with_value, with_heard, both_of};

use crate::Heard;
use crate::clipping::cap;
use crate::walking::{hear_four, hear_sent};
use matching::shares::Change;

#[derive(Clone, Copy)]
pub struct Link {
    pub least: f32,
    pub greatest: f32,
    pub punctured: usize,
}

// The larger of x and its opposite, by a subtraction and one test where f32::abs has two. 0.0 - x is +0.0 of either zero, as -x is not.
fn magnitude(x: f32) -> f32
    ensures { result ≡ magnitude_of x }
{
    let y = 0.0 - x;
    if y < x { x } else { y }
}

impl Link {
    // Of no bit: that is what it promises, as a derived default would not.
    pub fn new() -> Link
        ensures { result ≡ link_of [] }
    {
        Link {
            least: 0.0,
            greatest: 0.0,
            punctured: 0,
        }
    }

    // One value more, clipped, after `before` bits: the first, where all of those were punctured. A magnitude need only be held from above.
    fn with_value(self, x: f32, before: usize) -> Link
        ensures { result ≡ with_value self before (clipped x) }
    {
        let a = cap(magnitude(x));
        if self.punctured == before {
            return Link {
                least: a,
                greatest: a,
                punctured: self.punctured,
            };
        }
        let mut l = self;
        if a < self.least {
            l.least = a;
        }
        if self.greatest < a {
            l.greatest = a;
        }
        l
    }

    // One bit more, clipped, after `before` bits.
    pub fn with(self, h: Heard, before: usize) -> Link
        requires { self.punctured + 1 < 2 ^ 64 }
        ensures { result ≡ with_heard self before (clipped_of h) }
    {
        match h {
            Heard::Nothing => Link {
                least: self.least,
                greatest: self.greatest,
                punctured: self.punctured + 1,
            },
            Heard::Once(x) => self.with_value(x, before),
            Heard::Joined(x, _) => self.with_value(x, before),
        }
    }

    // With the record of another lane.
    fn together(self, other: Link) -> Link
        ensures { result ≡ both_of self other }
    {
        let mut l = self;
        if other.least < self.least {
            l.least = other.least;
        }
        if self.greatest < other.greatest {
            l.greatest = other.greatest;
        }
        l
    }
}

// Four records that start from the same one; the bits are dealt out to them, so that the compiler can treat four bits at once. They have names,
// as each is written out.
#[derive(Clone, Copy)]
struct Lanes {
    a: Link,
    b: Link,
    c: Link,
    d: Link,
}

impl Lanes {
    fn new(l: Link) -> Lanes
        ensures { (result.a ≡ l) × (result.b ≡ l) × (result.c ≡ l) × (result.d ≡ l) }
    {
        Lanes {
            a: l,
            b: l,
            c: l,
            d: l,
        }
    }

    // Four bits more, clipped, one to each lane.
    fn with(self, f: Heard, g: Heard, h: Heard, j: Heard, before: usize) -> Lanes
        requires { (before + 3 < 2 ^ 64) × (self.a.punctured + 1 < 2 ^ 64) × (self.b.punctured + 1 < 2 ^ 64) × (self.c.punctured + 1 < 2 ^ 64) × (self.d.punctured + 1 < 2 ^ 64) }
        ensures { (result.a ≡ with_heard self.a before (clipped_of f)) × (result.b ≡ with_heard self.b (before + 1) (clipped_of g)) × (result.c ≡ with_heard self.c (before + 2) (clipped_of h)) × (result.d ≡ with_heard self.d (before + 3) (clipped_of j)) }
    {
        Lanes {
            a: self.a.with(f, before),
            b: self.b.with(g, before + 1),
            c: self.c.with(h, before + 2),
            d: self.d.with(j, before + 3),
        }
    }

    fn whole(self) -> Link
        ensures { result ≡ both_of (both_of self.a self.b) (both_of self.c self.d) }
    {
        let ab = self.a.together(self.b);
        ab.together(self.c.together(self.d))
    }
}

// Each bit was sent, and takes its next copies. The first starts the lanes, and what four leave over comes last, from where they end.
fn link_sent(values: &[f32], n: usize, start: usize, m: usize) -> Link
    requires { Segment false m n (length values.now) start × (0 < n → Stands false (2 * n) (2 * m) start) }
    ensures { result ≡ link_of (heard_of (signed_by false m) n start values.now) }
{
    if n == 0 {
        return Link::new();
    }
    let p = 2 * n;
    let q = 2 * m;
    let first = hear_sent(values, 0, p, q, start);
    let mut w = Lanes::new(Link::new().with(first.heard, 0));
    let mut e = first.e;
    let mut k = first.next;
    let mut i: usize = 1;
    let last = n.saturating_sub(3);
    while i < last {
        let s = hear_four(values, k, p, q, e);
        w = w.with(s.f, s.g, s.h, s.j, i);
        e = s.e;
        k = s.next;
        i += 4;
    }
    let mut l = w.whole();
    for bit in i..n {
        let t = hear_sent(values, k, p, q, e);
        l = l.with(t.heard, bit);
        e = t.e;
        k = t.next;
    }
    l
}

// The link record of a segment of n bits, by d and the start e; `values` are those sent of it, in order.
// Where no bit has two copies, each value was heard alone: as of so many bits, each sent once.
pub fn link_segment(values: &[f32], n: usize, e: usize, d: Change) -> Link
    requires { Segment d.less d.size n (length values.now) e }
    ensures { result ≡ link_of (heard_of (signed_by d.less d.size) n e values.now) }
{
    let m = d.size as usize;
    if d.less || m == 0 {
        let l = link_sent(values, values.len(), 1, 0);
        return Link {
            least: l.least,
            greatest: l.greatest,
            punctured: m,
        };
    }
    link_sent(values, n, e, m)
}
