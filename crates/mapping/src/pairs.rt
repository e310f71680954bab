// Step 9 for a slot of at most two PhCHs that take bits in runs. It goes along lines, on which bits and places are evenly spaced: one for each bit
// of a round, along all the rounds that give both PhCHs a whole run; then three for what is left: PhCH 1's part of its run, all the rest of
// PhCH 2, and all the rest of PhCH 1.
ghost use Rattle.std.specs.Prelude.{◌≡◌, ◌+◌, ◌<◌, ◌≤◌, length};
ghost use Rattle.mapping.specs.Mapping.{in_runs, at};
ghost use Rattle.mapping.specs.Runs.{Short, Paired};
ghost use Rattle.mapping.specs.Pairs.{lines, Rounds, Fit, PairOf, Traced};
ghost use Rattle.mapping.specs.Lines.{Lent};
ghost use Rattle.mapping.specs.Settled.{Crossed};

use crate::lines::{Line, along};
use crate::{Runs, capacity, whole_runs};
use interleaving::direction::Direction;
use interleaving::second::Turns;

// PhCH 1 takes u bits in runs of b, and PhCH 2 takes v in runs of c. As many `rounds` give each a whole run; in the round after them PhCH 1 takes
// `rest` bits.
#[derive(Clone, Copy)]
struct Pair {
    b: usize,
    c: usize,
    u: usize,
    v: usize,
    rounds: usize,
    rest: usize,
}

// What PhCH p takes, and 0 where there is none.
fn share(caps: &[u16], p: usize) -> usize
    ensures { (result ≡ at caps.now p) × (result < 65536) }
{
    if p < caps.len() {
        return capacity(caps, p);
    }
    0
}

// How many rounds give each of two PhCHs a whole run.
fn full_rounds(u: usize, b: usize, v: usize, c: usize) -> usize
    requires { (0 < b) × (0 < c) }
    ensures { Rounds u b v c result }
{
    whole_runs(u, b).min(whole_runs(v, c))
}

impl Pair {
    // The pair of a slot in such runs. A PhCH that is not there takes no bits.
    fn of(caps: &[u16], runs: Runs) -> Pair
        requires { Short runs.first runs.other }
        ensures { PairOf caps.now runs.first runs.other result }
    {
        let u = share(caps, 0);
        let v = share(caps, 1);
        let rounds = full_rounds(u, runs.first, v, runs.other);
        let rest = runs.first.min(u - rounds * runs.first);
        Pair {
            b: runs.first,
            c: runs.other,
            u,
            v,
            rounds,
            rest,
        }
    }

    // The line after all others: what PhCH 1 still has room for once PhCH 2 is full.
    fn last_line(self) -> Line
        requires { Fit self }
        ensures { Traced self (self.b + self.c + 2) result }
    {
        let x = self.rounds * self.b + self.rest;
        Line {
            bit: x + self.v,
            step: 1,
            base: 0,
            p: 0,
            room: self.u,
            rank: x,
            apart: 1,
            count: self.u - x,
        }
    }

    // A line past the full rounds, along neighbours: PhCH 1's part of its run, all that PhCH 2 still has room for, and the last.
    fn line_after(self, j: usize) -> Line
        requires { Fit self × (self.b + self.c ≤ j) × (j < lines self) }
        ensures { Traced self j result }
    {
        let x = self.rounds * self.b;
        let y = self.rounds * self.c;
        if j == self.b + self.c {
            return Line {
                bit: x + y,
                step: 1,
                base: 0,
                p: 0,
                room: self.u,
                rank: x,
                apart: 1,
                count: self.rest,
            };
        }
        if j == self.b + self.c + 1 {
            return Line {
                bit: x + y + self.rest,
                step: 1,
                base: self.u,
                p: 1,
                room: self.v,
                rank: y,
                apart: 1,
                count: self.v - y,
            };
        }
        self.last_line()
    }

    // Line j: bit j of each full round, a bit of PhCH 1's run or of PhCH 2's, or one past those rounds.
    fn line(self, j: usize) -> Line
        requires { Fit self × (j < lines self) }
        ensures { Traced self j result }
    {
        let n = self.b + self.c;
        if j < self.b {
            return Line {
                bit: j,
                step: n,
                base: 0,
                p: 0,
                room: self.u,
                rank: j,
                apart: self.b,
                count: self.rounds,
            };
        }
        if n <= j {
            return self.line_after(j);
        }
        Line {
            bit: j,
            step: n,
            base: self.u,
            p: 1,
            room: self.v,
            rank: j - self.b,
            apart: self.c,
            count: self.rounds,
        }
    }
}

// Copies the bits of such a slot to their places, or back.
pub fn by_runs<D: Direction>(
    from: &[D::Item],
    turns: &Turns,
    at: usize,
    caps: &[u16],
    runs: Runs,
    to: &mut [D::Item],
)
    requires { Paired caps.now runs.first runs.other (length (D.sent from.now to.old)) (length (D.sent from.now to.old)) × Lent (length (D.rows from.now to.old)) at (length (D.sent from.now to.old)) turns.now }
    ensures { Crossed (in_runs runs.first runs.other) caps.now D.none at (length (D.sent from.now to.old)) (D.rows from.now to.old) (D.rows from.now to.new) (D.sent from.now to.new) }
{
    let t = Pair::of(caps, runs);
    let n = runs.first + runs.other + 3;
    for j in 0..n {
        along::<D>(from, turns, at, t.line(j), to);
    }
}
