// Steps 8 and 9 along a line: bits of a slot and their places, both evenly spaced. The bits are read where step 8 would take them from, and soft
// values are written there, so that nothing interleaved is kept. A line is walked turn by turn of step 8; within a turn what it reads or
// writes is 30 times as far apart as the bits are. Two bits are copied at a time, which takes the least time: the compiler does not unroll such a
// loop, and for four bits it has too few registers.
ghost use Rattle.std.specs.Prelude.{◌≡◌, ◌+◌, ◌-◌, ◌*◌, ◌<◌, length, slice_index_or, slice_set};
ghost use Rattle.mapping.specs.Lines.{spot_on, index_on, copied, Within, Lent, Walked, Way, Passed, Ready};

use crate::spot;
use interleaving::direction::Direction;
use interleaving::second::Turns;

// The bits `bit`, `bit` + `step`, .. of the slot, `count` of them, which are the bits `rank`, `rank` + `apart`, .. of PhCH p. Its places, as many as
// `room`, start at base.
#[derive(Clone, Copy)]
pub struct Line {
    pub bit: usize,
    pub step: usize,
    pub base: usize,
    pub p: usize,
    pub room: usize,
    pub rank: usize,
    pub apart: usize,
    pub count: usize,
}

// Where a walk along a line stands: before its bit i, which has index k, is read at `seat` and goes to `place`; or, taken back, the other way. The
// compiler drops i, which the proof counts by.
#[derive(Clone, Copy)]
struct Walk {
    i: usize,
    k: usize,
    seat: usize,
    place: usize,
}

impl Line {
    // How far the places move from one bit of a line to its next, modulo 2^64, so that one sum goes up and down.
    fn way(self) -> usize
        ensures { Way self result }
    {
        if self.p % 2 == 0 {
            self.apart
        } else {
            std::num::wrapping_sub_usize(0, self.apart)
        }
    }

    // Before the line's first bit; its seat is not known yet. A line of none has no place.
    fn begin(self, at: usize) -> Walk
        requires { (at + self.bit < 18446744073709551616) × (self.base + self.room < 18446744073709551616) × (0 < self.count → self.rank < self.room) }
        ensures { Walked self at result × (result.i ≡ 0) × (result.k ≡ at + self.bit) }
    {
        Walk {
            i: 0,
            k: at + self.bit,
            seat: 0,
            place: if self.count == 0 {
                0
            } else {
                spot(self.base, self.p, self.room, self.rank)
            },
        }
    }
}

impl Walk {
    // One bit on.
    fn pass(self, l: Line, way: usize) -> Walk
        requires { (self.i + 1 < 18446744073709551616) × (self.k + l.step < 18446744073709551616) × (self.seat + 30 * l.step < 18446744073709551616) }
        ensures { Passed l way self result }
    {
        Walk {
            i: self.i + 1,
            k: self.k + l.step,
            seat: self.seat + 30 * l.step,
            place: std::num::wrapping_add_usize(self.place, way),
        }
    }
}

// From which index on at most one bit of a line is left before index `last`.
pub(crate) fn lone_from(step: usize, last: usize) -> usize
    ensures { result ≡ last - step }
{
    last.saturating_sub(step)
}

// Copies one element between its seat and its place.
fn one<D: Direction>(from: &[D::Item], l: Line, way: usize, w: Walk, to: &mut [D::Item]) -> Walk
    requires { Ready (D.reads (length from.now) (length to.old)) (D.writes (length from.now) (length to.old)) l w }
    ensures { Passed l way w result × (to.new ≡ slice_set to.old (D.writes w.seat w.place) (slice_index_or from.now (D.reads w.seat w.place) D.none)) }
{
    let seat = w.seat;
    D::one(from, seat, w.place, to);
    w.pass(l, way)
}

// Copies the elements of a line between their seats, of which the turns are known, and their places in the slot.
pub fn along<D: Direction>(from: &[D::Item], turns: &Turns, at: usize, l: Line, to: &mut [D::Item])
    requires { Within (length (D.sent from.now to.old)) (length (D.sent from.now to.old)) l × Lent (length (D.rows from.now to.old)) at (length (D.sent from.now to.old)) turns.now }
    ensures { D.made to.new ≡ copied D.none (λ i. D.reads (index_on at l i) (spot_on l i)) (λ i. D.writes (index_on at l i) (spot_on l i)) (D.seen from.now) l.count (D.made to.old) }
{
    let way = l.way();
    let mut w = l.begin(at);
    let end = w.k + l.count * l.step;
    let mut t = 0;
    while w.k < end {
        let s = turns.seat_from(t, w.k);
        let last = s.end.min(end);
        let lone = lone_from(l.step, last);
        w.seat = s.from;
        t = s.turn;
        while w.k < lone {
            w = one::<D>(from, l, way, w, to);
            w = one::<D>(from, l, way, w, to);
        }
        if w.k < last {
            w = one::<D>(from, l, way, w, to);
        }
    }
}
