// Steps 9 and 8 undone: the values of a received frame in the order of the multiplexed frame.
ghost use Rattle.std.specs.Prelude.{◌≡◌, ◌+◌, ◌<◌, length};
ghost use Rattle.std.specs.Float.{nan};
ghost use Rattle.sheet.specs.Sizes.{subframes_of, capacity_all};
ghost use Rattle.sheet.specs.Range.{Accepted};
ghost use Rattle.homing.specs.Gather.{part_unmapped, gathered};
ghost use Rattle.homing.specs.Pieces.{Through};

use frame::spreading::{block_of, runs_at, span_of};
use sheet::Sheet;

// Of sub-frame h, slot after slot.
fn gather_subframe(frame: &[f32], fields: &Sheet, h: usize, out: &mut [f32])
    requires { Accepted fields.now × (length frame.now ≡ capacity_all fields.now) × (h < subframes_of fields.now) × Through fields.now (part_unmapped nan fields.now frame.now) out.old h 0 }
    ensures { Through fields.now (part_unmapped nan fields.now frame.now) out.new (h + 1) 0 }
{
    let k = fields.subframes();
    let w = fields.subframe_places(out.len());
    let start = h * w;
    let mut a: usize = 0;
    for t in 0..usize::from(fields.slots) {
        let s = span_of(fields, t, a, w);
        let b = block_of(fields.mode, k, h, w, a, s.end);
        mapping::unmap_slot(
            &frame[start + a..start + s.end],
            &fields.caps[s.from..s.to],
            runs_at(fields, t),
            b.at,
            &mut out[b.from..b.to],
        );
        a = s.end;
    }
}

// Sub-frame after sub-frame.
pub fn gather_values(frame: &[f32], fields: &Sheet, out: &mut [f32])
    requires { Accepted fields.now × (length frame.now ≡ capacity_all fields.now) × (length out.old ≡ capacity_all fields.now) }
    ensures { out.new ≡ gathered nan fields.now frame.now }
{
    for h in 0..fields.subframes() {
        gather_subframe(frame, fields, h, out);
    }
}
