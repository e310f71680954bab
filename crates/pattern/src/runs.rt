// Runs: after a bit that is dropped or repeated come bits that are sent once each. Where they stand side by side they are copied by blocks;
// with a step between them blocks took as long as bit by bit, or longer.
ghost use Rattle.std.specs.Prelude.{◌≡◌, ◌+◌, ◌-◌, ◌*◌, ◌^◌, ◌≤◌, ◌<◌, length};
ghost use Rattle.sheet.specs.Counts.{most_bits, most_frames};
ghost use Rattle.pattern.specs.Run.{Copied, Ran, Gone};

// How many bits such a run has, where it has 16 or fewer: as often e falls by q and stays above 0. It is counted, since no division is spent
// on it, and what it is matters for speed alone.
pub fn run_of(p: usize, q: usize) -> usize
    requires { (2 * q < 2 ^ 64) × (p + q < 2 ^ 64) }
    ensures { result ≤ 16 }
{
    let mut fall = 2 * q;
    for run in 0..16 {
        if p < fall {
            return run;
        }
        fall += q;
    }
    16
}

// Eight bits. All are read before the first is written, so that the compiler takes the eight at once; `copy_from_slice` would first ask whether
// the two overlap, and on an array between them too.
fn copy_eight(src: &[u8], j: usize, dst: &mut [u8], k: usize)
    requires { (j + 7 < length src.now) × (k + 7 < length dst.old) }
    ensures { Copied src.now dst.old dst.new j k 8 }
{
    let a = src[j];
    let b = src[j + 1];
    let c = src[j + 2];
    let d = src[j + 3];
    let e = src[j + 4];
    let f = src[j + 5];
    let g = src[j + 6];
    let h = src[j + 7];
    dst[k] = a;
    dst[k + 1] = b;
    dst[k + 2] = c;
    dst[k + 3] = d;
    dst[k + 4] = e;
    dst[k + 5] = f;
    dst[k + 6] = g;
    dst[k + 7] = h;
}

// So many bits, by eights: up to seven more are written, over which others are written later. A run copied by its own length would be a loop
// over single bits, as few as they are.
fn copy_run(src: &[u8], j: usize, dst: &mut [u8], k: usize, count: usize)
    requires { (j + count + 7 ≤ length src.now) × (k + count + 7 ≤ length dst.old) }
    ensures { Copied src.now dst.old dst.new j k count }
{
    for done in (0..count).step_by(8) {
        copy_eight(src, j + done, dst, k + done);
    }
}

// Where the walk stands: e, the place of the next bit sent, and the index of the next bit read.
#[derive(Clone, Copy)]
pub struct Stand {
    pub e: usize,
    pub k: usize,
    pub j: usize,
}

impl Stand {
    pub fn first(start: usize, from: usize) -> Stand
        ensures { (result.e ≡ start) × (result.k ≡ 0) × (result.j ≡ from) }
    {
        Stand {
            e: start,
            k: 0,
            j: from,
        }
    }

    // Over bits side by side the walk goes on by `run` bits, where e stays above 0 and both ends are far enough, and by one bit more in some
    // runs. A run of one or two bits is not worth a block.
    pub fn send_run(self, src: &[u8], dst: &mut [u8], q: usize, run: usize) -> Stand
        requires { (run ≤ 16) × (q ≤ 2 * most_bits) × (0 < self.e) }
        ensures { Ran q src.now dst.old dst.new self.e self.k self.j result.e result.k result.j }
    {
        let fall = run * q;
        let reach = run + 7;
        let last = src.len().saturating_sub(reach);
        let room = dst.len().saturating_sub(reach);
        if run < 3 || self.e <= fall || last <= self.j || room <= self.k {
            return self;
        }
        copy_run(src, self.j, dst, self.k, run);
        let low = self.e - fall;
        let to = self.k + run;
        let at = self.j + run;
        if low <= q {
            return Stand {
                e: low,
                k: to,
                j: at,
            };
        }
        dst[to] = src[at];
        Stand {
            e: low - q,
            k: to + 1,
            j: at + 1,
        }
    }

    // On to the next bit, and where bits stand side by side over a run of them.
    pub fn on(self, src: &[u8], dst: &mut [u8], step: usize, q: usize, run: usize) -> Stand
        requires { (run ≤ 16) × (q ≤ 2 * most_bits) × (0 < self.e) × (self.j < length src.now) × (step ≤ most_frames) }
        ensures { Gone step q src.now dst.old dst.new self.e self.k self.j result.e result.k result.j }
    {
        let next = Stand {
            e: self.e,
            k: self.k,
            j: self.j + step,
        };
        if step == 1 {
            return next.send_run(src, dst, q, run);
        }
        next
    }
}
