// Step 8 of a whole list at once: one column after the other, where nothing has to be looked for. Four elements are copied at a time, and the loops ask
// whether the column goes on, by `while`: of a loop that knows its height, as a `for` does, the compiler makes vectors, for which most columns are
// too short.
ghost use Rattle.std.specs.Prelude.{◌≡◌, ◌≤◌, length};
ghost use Rattle.sheet.specs.Counts.{most_bits};
ghost use Rattle.interleaving.specs.Second.{second_interleaved};
ghost use Rattle.interleaving.specs.Whole.{Down, ColumnPassed};

use crate::direction::{Back, Direction, There};

// Copies element c and every 30th behind it, whose indices after step 8 are those from `begin` on, and answers the index behind them.
fn ones<D: Direction>(from: &[D::Item], c: usize, begin: usize, to: &mut [D::Item]) -> usize
    requires { Down (length from.now) c begin × (length to.old ≡ length from.now) }
    ensures { ColumnPassed D.none (D.seen from.now) (D.made to.old) (D.made to.new) (length from.now) c begin result }
{
    let mut k = begin;
    let mut seat = c;
    while seat < from.len() {
        D::one(from, seat, k, to);
        k += 1;
        seat += 30;
    }
    k
}

// The same by fours, as long as there are four.
fn column<D: Direction>(from: &[D::Item], c: usize, begin: usize, to: &mut [D::Item]) -> usize
    requires { Down (length from.now) c begin × (length to.old ≡ length from.now) }
    ensures { ColumnPassed D.none (D.seen from.now) (D.made to.old) (D.made to.new) (length from.now) c begin result }
{
    let mut k = begin;
    let mut seat = c;
    while seat + 90 < from.len() {
        D::one(from, seat, k, to);
        D::one(from, seat + 30, k + 1, to);
        D::one(from, seat + 60, k + 2, to);
        D::one(from, seat + 90, k + 3, to);
        k += 4;
        seat += 120;
    }
    ones::<D>(from, seat, k, to)
}

// All columns, each in its turn.
fn columns<D: Direction>(from: &[D::Item], to: &mut [D::Item])
    requires { (length to.old ≡ length from.now) × (length from.now ≤ most_bits) }
    ensures { D.made to.new ≡ D.seen from.now }
{
    let mut k = 0;
    for c in &orders::columns() {
        k = column::<D>(from, usize::from(*c), k, to);
    }
}

// Step 8.
pub fn interleave(bits: &[u8], out: &mut [u8])
    requires { (length out.old ≡ length bits.now) × (length bits.now ≤ most_bits) }
    ensures { out.new ≡ second_interleaved bits.now }
{
    columns::<There>(bits, out);
}

// Step 8 undone.
pub fn undo(from: &[f32], values: &mut [f32])
    requires { (length values.old ≡ length from.now) × (length from.now ≤ most_bits) }
    ensures { second_interleaved values.new ≡ from.now }
{
    columns::<Back>(from, values);
}
