// Step 6 without the running e: which copy of which bit stands at an index of the bits sent.
ghost use Rattle.std.specs.Prelude.{true, false, ◌<◌};
ghost use Rattle.matching.specs.Signed.{signed_by};
ghost use Rattle.pattern.specs.Pattern.{Segment};
ghost use Rattle.pattern.specs.Closed.{Stood};

use matching::shares::Change;

// A bit of the segment, counted from 0, and the number of its copy.
#[derive(Clone, Copy)]
pub struct Sent {
    pub bit: u64,
    pub copy: u64,
}

// Repetition: the copy is v less the bits before it and the copies added to them.
fn repeated_at(n: u64, w: u64, e: u64, m: u64, v: u64) -> Sent
    requires { Segment false m n w e × (0 < m) × (v < w) }
    ensures { Stood (signed_by false m) n e v result.bit result.copy }
{
    let bit = (2 * n * v + e - 1) / (2 * w);
    let copy = v - (bit + (2 * m * bit + 2 * n - e) / (2 * n));
    Sent { bit, copy }
}

// Puncturing: of a bit that is sent there is copy 0 alone.
fn punctured_at(n: u64, w: u64, e: u64, m: u64, v: u64) -> Sent
    requires { Segment true m n w e × (0 < m) × (v < w) }
    ensures { Stood (signed_by true m) n e v result.bit result.copy }
{
    let bit = (2 * n * v + 2 * n - e) / (2 * w);
    Sent { bit, copy: 0 }
}

// What stands at index v of the w bits sent of n, by d and the start e.
pub fn sent_at(n: u64, w: u64, e: u64, d: Change, v: u64) -> Sent
    requires { Segment d.less d.size n w e × (v < w) }
    ensures { Stood (signed_by d.less d.size) n e v result.bit result.copy }
{
    if d.size == 0 {
        return Sent { bit: v, copy: 0 };
    }
    if d.less {
        return punctured_at(n, w, e, d.size, v);
    }
    repeated_at(n, w, e, d.size, v)
}
