// Steps 2 and 1 undone. Steps 1 to 3 need no code of their own: step 6 reads its segment where it stands among the contents.
ghost use Rattle.std.specs.Prelude.{◌≡◌, length};
ghost use Rattle.std.specs.Float.{nan};
ghost use Rattle.interleaving.specs.First.{finished, Finishing};

use crate::frames;

// The values of a channel in the coder's order: each segment is laid down its column, as far as `out` goes.
pub fn finish(part: &[f32], tti: usize, n: usize, out: &mut [f32])
    requires { Finishing tti n (length part.now) (length out.old) }
    ensures { out.new ≡ finished nan tti n (length out.old) part.now }
{
    let f = frames(tti);
    let row = orders::row(tti);
    for s in 0..f {
        let mut i = s * n;
        let p = usize::from(row[s]);
        let mut k = p;
        // By `while`, which asks once at each value whether the column goes on: `step_by` asks twice, and of a `for` over counted rows the compiler
        // makes vectors, which cost short columns more.
        while k < out.len() {
            out[k] = part[i];
            i += 1;
            k += f;
        }
    }
}
