// Step 9: mapping a slot's bits to its physical channels (PhCHs), and the undoing. PhCHs and their bits are counted from 0 here.
// Bits that go one at a time are mapped along one PhCH after the other, stretch by stretch. From one bit of a PhCH to its next the number of the
// bit moves by a stride, which changes only where a PhCH fills up. Two PhCHs that take bits in runs are mapped by `pairs`.
#![tactic(auto)]

ghost use Rattle.std.specs.Prelude.{◌≡◌, ◌+◌, ◌-◌, ◌/◌, ◌^◌, ◌<◌, ◌≤◌, min, length};
ghost use Rattle.std.specs.Float.{nan};
ghost use Rattle.mapping.specs.Mapping.{pos_of, number_of, filled_as, ones, first_run, second_run, in_runs, at, slot_size, slot_of, slot_undone, Slot};
ghost use Rattle.mapping.specs.Runs.{had_in, Short, Coded};
ghost use Rattle.mapping.specs.Strides.{turns, walk, Reached, Least, Marked, Leg, Onward};
ghost use Rattle.mapping.specs.Lines.{line_along, Lent, part_from};
ghost use Rattle.mapping.specs.Settled.{Crossed};
ghost use Rattle.interleaving.specs.Second.{second_interleaved};
ghost use Rattle.sheet.specs.Counts.{most_bits};
ghost use borrow.Rule.Slice.PartMut.{put_mid};

mod lines;
mod pairs;
mod rounds;
mod short;

use interleaving::direction::{Back, Direction, There};
use interleaving::second::Turns;
use lines::{Line, along};
use rounds::{is_threefold, map_threefold};
use short::{FEW, SHORT};

// How many bits PhCH 1 takes at its turn, and how many the others do.
#[derive(Clone, Copy)]
pub struct Runs {
    pub first: usize,
    pub other: usize,
}

// Of two codes in uplink, by the logarithms of their spreading factors.
pub fn runs_of(first: u16, second: u16) -> Runs
    requires { (first ≤ 4) × (second ≤ 4) }
    ensures { (result.first ≡ first_run (2 ^ first) (2 ^ second)) × (result.other ≡ second_run (2 ^ first) (2 ^ second)) × Short result.first result.other }
{
    if first < second {
        Runs {
            first: 1usize << (second - first),
            other: 1,
        }
    } else {
        Runs {
            first: 1,
            other: 1usize << (first - second),
        }
    }
}

// What PhCH p takes.
fn capacity(caps: &[u16], p: usize) -> usize
    requires { p < length caps.now }
    ensures { (result ≡ at caps.now p) × (result < 65536) }
{
    usize::from(caps[p])
}

// How many whole runs x bits have. Where bits go one at a time nothing is divided.
fn whole_runs(x: usize, run: usize) -> usize
    requires { 0 < run }
    ensures { result ≡ x / run }
{
    if run == 1 {
        return x;
    }
    x / run
}

// The place, in a slot in frame order, of bit x of PhCH p, whose u places start at base. Its number is p + 1: odd ones fill from place 1 up,
// even ones from place u down.
fn spot(base: usize, p: usize, u: usize, x: usize) -> usize
    requires { (x < u) × (base + u < 18446744073709551616) }
    ensures { (result ≡ base + (pos_of u (p + 1) x - 1)) × (result < base + u) }
{
    if p % 2 == 0 {
        base + x
    } else {
        base + (u - 1 - x)
    }
}

// How many turns PhCH q has had when PhCH p takes its bit x.
fn turns_had(p: usize, x: usize, q: usize) -> usize
    requires { x < 65536 }
    ensures { (result ≡ turns p x q) × (x ≤ result) × (result ≤ x + 1) }
{
    if q < p { x + 1 } else { x }
}

// Where the walk stands: before bit x of PhCH p, whose number is k. The PhCH's places start at base and its bit 0 has the number `first`;
// no capacity is below `low`.
#[derive(Clone, Copy)]
struct Mark {
    low: usize,
    p: usize,
    base: usize,
    first: usize,
    x: usize,
    k: usize,
}

// The numbers of a PhCH's bits, from one of them up to `end`, are a stride apart. The PhCH has `room` places.
#[derive(Clone, Copy)]
struct Stretch {
    room: usize,
    stride: usize,
    end: usize,
}

// A number that no capacity is below.
fn least(caps: &[u16]) -> usize
    ensures { Least caps.now (length caps.now) result }
{
    let mut m: usize = 65535;
    for cap in caps {
        m = m.min(usize::from(*cap));
    }
    m
}

// Up to which bit of PhCH p another, which takes v and has had `had` turns by p's bit x, has room each time; `end` at most.
fn until(end: usize, v: usize, had: usize, x: usize) -> usize
    requires { (x ≤ had) × (had < v) }
    ensures { result ≡ min end (v - (had - x)) }
{
    end.min(v - (had - x))
}

// The stretch of PhCH p, which has u places, from its bit x on, by asking each PhCH whether it has room, and for how long.
fn reach(caps: &[u16], p: usize, u: usize, x: usize) -> Stretch
    requires { (u ≡ at caps.now p) × (u < 65536) × (x < u) }
    ensures { (result.room ≡ u) × Reached (at caps.now) (length caps.now) p x result.stride result.end }
{
    let mut stride = 0;
    let mut end = u;
    for q in 0..caps.len() {
        let v = capacity(caps, q);
        let had = turns_had(p, x, q);
        if had < v {
            stride += 1;
            end = until(end, v, had, x);
        }
    }
    Stretch {
        room: u,
        stride,
        end,
    }
}

impl Mark {
    // Before a slot's first bit.
    fn start(caps: &[u16]) -> Mark
        requires { slot_size caps.now + length caps.now < 18446744073709551616 }
        ensures { Marked caps.now result × (result.base + result.x ≡ 0) }
    {
        Mark {
            low: least(caps),
            p: 0,
            base: 0,
            first: 0,
            x: 0,
            k: 0,
        }
    }

    // The stretch, at once where no PhCH is near its end or the PhCH has one bit left or none, and else by asking. After a PhCH's last bit the
    // stride does not matter.
    fn stretch(self, caps: &[u16]) -> Stretch
        requires { Marked caps.now self × (self.p < length caps.now) }
        ensures { Leg caps.now self result }
    {
        let u = capacity(caps, self.p);
        let low = self.low;
        let x = self.x;
        if x + 1 < low {
            Stretch {
                room: u,
                stride: caps.len(),
                end: if u == low { u } else { low - 1 },
            }
        } else if u <= x + 1 {
            Stretch {
                room: u,
                stride: 1,
                end: u,
            }
        } else {
            reach(caps, self.p, u, x)
        }
    }

    // After a stretch, k being the number of the bit that comes next in the PhCH: there, or at the next PhCH.
    fn onward(self, caps: &[u16], r: Stretch, k: usize) -> Mark
        requires { Leg caps.now self r × (r.end < r.room → k ≡ walk (at caps.now) (length caps.now) self.p r.end) }
        ensures { Onward caps.now self r result }
    {
        if r.end < r.room {
            Mark {
                low: self.low,
                p: self.p,
                base: self.base,
                first: self.first,
                x: r.end,
                k: k,
            }
        } else {
            let first = self.first + r.room.min(1);
            Mark {
                low: self.low,
                p: self.p + 1,
                base: self.base + r.room,
                first: first,
                x: 0,
                k: first,
            }
        }
    }

    // A stretch as a line.
    fn line(self, r: Stretch) -> Line
        requires { self.x ≤ r.end }
        ensures { result ≡ line_along self r }
    {
        Line {
            bit: self.k,
            step: r.stride,
            base: self.base,
            p: self.p,
            room: r.room,
            rank: self.x,
            apart: 1,
            count: r.end - self.x,
        }
    }
}

// Copies the bits of a slot, one at a time to each PhCH that has room, or back.
fn in_turn<D: Direction>(
    from: &[D::Item],
    turns: &Turns,
    at: usize,
    caps: &[u16],
    to: &mut [D::Item],
)
    requires { Slot caps.now (length (D.sent from.now to.old)) (length (D.sent from.now to.old)) × (length caps.now ≤ 16) × Lent (length (D.rows from.now to.old)) at (length (D.sent from.now to.old)) turns.now }
    ensures { Crossed ones caps.now D.none at (length (D.sent from.now to.old)) (D.rows from.now to.old) (D.rows from.now to.new) (D.sent from.now to.new) }
{
    let mut m = Mark::start(caps);
    while m.p < caps.len() {
        let r = m.stretch(caps);
        let l = m.line(r);
        along::<D>(from, turns, at, l, to);
        m = m.onward(caps, r, m.k + l.count * r.stride);
    }
}

// Maps the bits of a slot in runs. The frame is the slot's part of it; the bits are not interleaved yet, and the slot's are those that step 8 puts
// to the indices from `at` on.
pub fn map_slot(bits: &[u8], at: usize, caps: &[u16], runs: Runs, frame: &mut [u8])
    requires { Coded caps.now runs.first runs.other (length frame.old) (length frame.old) × (at + length frame.old ≤ length bits.now) × (length bits.now ≤ most_bits) }
    ensures { frame.new ≡ slot_of (in_runs runs.first runs.other) caps.now (part_from at (length frame.old) (second_interleaved bits.now)) frame.old }
{
    // Step 9 moves nothing where one PhCH has all that step 8 interleaves.
    if caps.len() == 1 && frame.len() == bits.len() {
        interleaving::whole::interleave(bits, frame);
        return;
    }
    if frame.len() == bits.len() && is_threefold(caps) {
        map_threefold(bits, caps, frame);
        return;
    }
    let turns = Turns::of(bits.len());
    if runs.first + runs.other != 2 {
        pairs::by_runs::<There>(bits, &turns, at, caps, runs, frame);
        return;
    }
    if frame.len() <= SHORT && bits.len() < FEW * caps.len() {
        short::map_short(bits, &turns, at, caps, frame);
        return;
    }
    in_turn::<There>(bits, &turns, at, caps, frame);
}

// Takes the soft values of a slot back to where its bits came from; the other values stay as they are.
pub fn unmap_slot(frame: &[f32], caps: &[u16], runs: Runs, at: usize, values: &mut [f32])
    requires { Coded caps.now runs.first runs.other (length frame.now) (length frame.now) × (at + length frame.now ≤ length values.old) × (length values.old ≤ most_bits) }
    ensures { second_interleaved values.new ≡ put_mid at (length frame.now) (second_interleaved values.old) (slot_undone (in_runs runs.first runs.other) caps.now nan frame.now) }
{
    if caps.len() == 1 && frame.len() == values.len() {
        interleaving::whole::undo(frame, values);
        return;
    }
    let turns = Turns::of(values.len());
    if runs.first + runs.other != 2 {
        pairs::by_runs::<Back>(frame, &turns, at, caps, runs, values);
        return;
    }
    if frame.len() <= SHORT && values.len() < FEW * caps.len() {
        short::unmap_short(frame, &turns, at, caps, values);
        return;
    }
    in_turn::<Back>(frame, &turns, at, caps, values);
}

// Which of a PhCH's u bits, counted from 0, stands at its place, counted from 1: the undoing of `spot`.
fn rank_at(p: usize, u: usize, place: usize) -> usize
    requires { (0 < place) × (place ≤ u) }
    ensures { (result ≡ filled_as u (p + 1) place) × (result < u) }
{
    if p % 2 == 0 { place - 1 } else { u - place }
}

// How many bits PhCH p takes at its turn.
fn run_of(runs: Runs, p: usize) -> usize
    requires { Short runs.first runs.other }
    ensures { (result ≡ in_runs runs.first runs.other p) × (0 < result) × (result ≤ 16) }
{
    if p == 0 { runs.first } else { runs.other }
}

// What PhCH q, other than PhCH p, has when PhCH p takes a bit of its turn.
fn had_by(caps: &[u16], runs: Runs, p: usize, turn: usize, q: usize) -> usize
    requires { (q < length caps.now) × (turn < 65536) × Short runs.first runs.other }
    ensures { (result ≡ had_in (at caps.now) (in_runs runs.first runs.other) p turn q) × (result ≤ 65535) }
{
    if q == p {
        return 0;
    }
    capacity(caps, q).min(turns_had(p, turn, q) * run_of(runs, q))
}

// The slot's bit that stands at a place of PhCH p: as many as all PhCHs have by then.
pub fn bit_at(caps: &[u16], runs: Runs, p: usize, place: usize) -> usize
    requires { (p < length caps.now) × (length caps.now ≤ 16) × (0 < place) × (place ≤ at caps.now p) × Short runs.first runs.other }
    ensures { result ≡ number_of (at caps.now) (in_runs runs.first runs.other) (length caps.now) p (filled_as (at caps.now p) (p + 1) place) }
{
    let x = rank_at(p, capacity(caps, p), place);
    let turn = whole_runs(x, run_of(runs, p));
    let mut sum = 0;
    for q in 0..caps.len() {
        sum += had_by(caps, runs, p, turn, q);
    }
    x + sum
}
