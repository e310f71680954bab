// Steps 8 and 9 of a slot in which step 8 has next to no indices a turn: a line of such a slot would go from turn to turn for a bit in each. The
// slot's bits are laid out in a small room between the two steps.
ghost use Rattle.std.specs.Prelude.{◌≡◌, ◌≤◌, ◌<◌, length};
ghost use Rattle.std.specs.Float.{nan};
ghost use borrow.Rule.Slice.PartMut.{put_mid};
ghost use Rattle.interleaving.specs.Second.{second_interleaved};
ghost use Rattle.mapping.specs.Mapping.{ones, slot_of, slot_undone, slot_size, Slot};
ghost use Rattle.mapping.specs.Strides.{Along};
ghost use Rattle.mapping.specs.Lines.{whole_line, short_slot, Lent, part_from};
ghost use Rattle.mapping.specs.Settled.{Settled};

use crate::lines::{Line, along};
use crate::{Mark, Stretch, spot};
use interleaving::direction::{Back, Direction, There};
use interleaving::second::Turns;

// As many places as the room has.
pub const SHORT: usize = 512;

// With fewer bits for each PhCH than these, all that step 8 interleaves together, a line has less than some four bits a turn (docs/SPEED.md).
pub const FEW: usize = 120;

// All n bits of a slot as they come, place after place.
fn whole_line(n: usize) -> Line
    ensures { result ≡ whole_line n }
{
    Line {
        bit: 0,
        step: 1,
        base: 0,
        p: 0,
        room: n,
        rank: 0,
        apart: 1,
        count: n,
    }
}

// Copies the bits of a stretch to their places, or back, and answers the number of the bit after it.
fn fill<D: Direction>(
    from: &[D::Item],
    caps: &[u16],
    m: Mark,
    r: Stretch,
    to: &mut [D::Item],
) -> usize
    requires { Along caps.now D.none (D.rows from.now to.old) m r m.x m.k (D.sent from.now to.old) }
    ensures { Along caps.now D.none (D.rows from.now to.new) m r r.end result (D.sent from.now to.new) }
{
    let mut k = m.k;
    for x in m.x..r.end {
        D::one(from, k, spot(m.base, m.p, r.room, x), to);
        k += r.stride;
    }
    k
}

// Step 9 alone, or undone.
fn laid<D: Direction>(from: &[D::Item], caps: &[u16], to: &mut [D::Item])
    requires { Slot caps.now (length (D.rows from.now to.old)) (length (D.sent from.now to.old)) × (length caps.now ≤ 16) × (slot_size caps.now < 4294967296) }
    ensures { Settled ones caps.now D.none (D.rows from.now to.new) (D.sent from.now to.new) }
{
    let mut m = Mark::start(caps);
    while m.p < caps.len() {
        let r = m.stretch(caps);
        let k = fill::<D>(from, caps, m, r, to);
        m = m.onward(caps, r, k);
    }
}

// Steps 8 and 9, the slot's bits in a room that is lent. Undone they come in the other order, so that one function for both ways is no plainer.
fn map_between(
    bits: &[u8],
    turns: &Turns,
    at: usize,
    caps: &[u16],
    room: &mut [u8],
    frame: &mut [u8],
)
    requires { Slot caps.now (length frame.old) (length frame.old) × (length caps.now ≤ 16) × (length frame.old ≤ length room.old) × Lent (length bits.now) at (length frame.old) turns.now }
    ensures { frame.new ≡ slot_of ones caps.now (part_from at (length frame.old) (second_interleaved bits.now)) frame.old }
{
    let n = frame.len();
    along::<There>(bits, turns, at, whole_line(n), &mut room[..n]);
    laid::<There>(&room[..n], caps, frame);
}

// Both undone.
fn unmap_between(
    frame: &[f32],
    turns: &Turns,
    at: usize,
    caps: &[u16],
    room: &mut [f32],
    values: &mut [f32],
)
    requires { Slot caps.now (length frame.now) (length frame.now) × (length caps.now ≤ 16) × (length frame.now ≤ length room.old) × Lent (length values.old) at (length frame.now) turns.now }
    ensures { second_interleaved values.new ≡ put_mid at (length frame.now) (second_interleaved values.old) (slot_undone ones caps.now nan frame.now) }
{
    let n = frame.len();
    laid::<Back>(frame, caps, &mut room[..n]);
    along::<Back>(&room[..n], turns, at, whole_line(n), values);
}

// Maps the bits of such a slot.
pub fn map_short(bits: &[u8], turns: &Turns, at: usize, caps: &[u16], frame: &mut [u8])
    requires { Slot caps.now (length frame.old) (length frame.old) × (length caps.now ≤ 16) × (length frame.old ≤ short_slot) × Lent (length bits.now) at (length frame.old) turns.now }
    ensures { frame.new ≡ slot_of ones caps.now (part_from at (length frame.old) (second_interleaved bits.now)) frame.old }
{
    let mut room = [0u8; SHORT];
    map_between(bits, turns, at, caps, &mut room, frame);
}

// Takes the soft values of such a slot back to where its bits came from.
pub fn unmap_short(frame: &[f32], turns: &Turns, at: usize, caps: &[u16], values: &mut [f32])
    requires { Slot caps.now (length frame.now) (length frame.now) × (length caps.now ≤ 16) × (length frame.now ≤ short_slot) × Lent (length values.old) at (length frame.now) turns.now }
    ensures { second_interleaved values.new ≡ put_mid at (length frame.now) (second_interleaved values.old) (slot_undone ones caps.now nan frame.now) }
{
    let mut room = [1.0f32; SHORT];
    unmap_between(frame, turns, at, caps, &mut room, values);
}
