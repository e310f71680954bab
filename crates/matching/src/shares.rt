// Step 4: the shares of the channels.
ghost use Rattle.std.specs.Prelude.{◌≡◌, ℕ, ◌*◌, ◌≤◌, ◌<◌, pos, ◌-ℤ◌};
ghost use Rattle.sheet.specs.Counts.{most_tti, most_encoded, most_ratio, most_bits};
ghost use Rattle.sheet.specs.Sizes.{frames_in, segment_in, capacity_all};
ghost use Rattle.sheet.specs.Range.{Ranged};
ghost use Rattle.matching.specs.Signed.{signed_by};
ghost use Rattle.matching.specs.Shares.{weight_all, parts_of, cuts_of};

use sheet::Sheet;
use sheet::counts::CHANNELS;
use sheet::sizes::segment;

// A difference by its sign (true: below 0) and its magnitude.
#[derive(Clone, Copy)]
pub struct Change {
    pub less: bool,
    pub size: u64,
}

// d = V - N, no larger than the larger of the two.
pub fn difference(v: u64, n: u64) -> Change
    ensures { (signed_by result.less result.size ≡ pos v -ℤ pos n) × ((b : ℕ) → v ≤ b → n ≤ b → result.size ≤ b) }
{
    if v < n {
        return Change {
            less: true,
            size: n - v,
        };
    }
    Change {
        less: false,
        size: v - n,
    }
}

// RM x N.
fn weight(rm: u16, e: u16, tti: u16) -> u64
    requires { (rm ≤ most_ratio) × (e ≤ most_encoded) × (tti ≤ most_tti) }
    ensures { (result ≡ rm * segment_in e (frames_in tti)) × (result ≤ most_ratio * most_encoded) }
{
    u64::from(rm) * segment(e, tti)
}

// RM x N added up over the first 0 to I channels, 0 past them.
fn parts(fields: &Sheet) -> [u64; CHANNELS + 1]
    requires { Ranged fields.now }
    ensures { result ≡ parts_of fields.now }
{
    let mut all = [0u64; CHANNELS + 1];
    let mut part: u64 = 0;
    for i in 0..usize::from(fields.channels) {
        part += weight(fields.rm[i], fields.e[i], fields.tti[i]);
        all[i + 1] = part;
    }
    all
}

// Z_0 to Z_I, 0 past them, of the fields and their D.
pub fn cuts(fields: &Sheet, d: u64) -> [u16; CHANNELS + 1]
    requires { Ranged fields.now × (0 < weight_all fields.now) × (d ≡ capacity_all fields.now) × (d ≤ most_bits) }
    ensures { result ≡ cuts_of fields.now }
{
    let n = usize::from(fields.channels);
    let parts = parts(fields);
    let all = parts[n];
    let mut z = [0u16; CHANNELS + 1];
    for i in 0..n {
        z[i + 1] = (d * parts[i + 1] / all) as u16;
    }
    z
}
