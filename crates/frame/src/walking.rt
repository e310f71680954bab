// Step 6 of one channel: the numbers by which its segment is walked, sending and taking back.
ghost use Rattle.std.specs.Prelude.{◌≡◌, ◌≤◌, ◌<◌};
ghost use Rattle.sheet.specs.Counts.{most_tti, most_encoded, most_bits};
ghost use Rattle.sheet.specs.Fields.{tti_of};
ghost use Rattle.sheet.specs.Sizes.{size_of};
ghost use Rattle.sheet.specs.Range.{Accepted};
ghost use Rattle.matching.specs.Signed.{signed_by};
ghost use Rattle.matching.specs.Shares.{share_of};
ghost use Rattle.offset.specs.Offset.{start_of};
ghost use Rattle.frame.specs.Walk.{Walks};

use counters::FrameNumber;
use matching::shares::{Change, difference};
use offset::start;
use sheet::Sheet;

// N, the start e, and d.
#[derive(Clone, Copy)]
pub struct Walk {
    pub n: usize,
    pub e: usize,
    pub d: Change,
}

// The start e, and 1 where no pattern starts: an empty channel, or d = 0.
pub fn start_of(n: u64, d: Change, tti: u16, frame: FrameNumber) -> u64
    requires { (n ≤ most_encoded) × (d.size ≤ most_bits) × (tti ≤ most_tti) }
    ensures { (0 < n → 0 < d.size → result ≡ start_of n (signed_by d.less d.size) tti frame.0) × (result ≤ 32766) }
{
    if n == 0 {
        return 1;
    }
    if d.size == 0 {
        return 1;
    }
    start(n, d, tti, frame)
}

// The walk of channel i, counted from 0, in a frame, by its N, its V and its TTI.
pub fn walk_of(fields: &Sheet, i: usize, n: u64, v: u64, tti: u16, number: FrameNumber) -> Walk
    requires { Accepted fields.now × (i < fields.now.channels) × (n ≡ size_of fields.now i) × (v ≡ share_of fields.now i) × (tti ≡ tti_of fields.now i) }
    ensures { Walks fields.now number.0 i result }
{
    let d = difference(v, n);
    let e = start_of(n, d, tti, number);
    Walk {
        n: n as usize,
        e: e as usize,
        d,
    }
}
