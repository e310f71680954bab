// What a decoder takes: magnitudes up to 1,024. Both tests ask whether the value stays, so that each compiles to one instruction. f32::clamp
// keeps a NaN, and of two equal values f32::min leaves open which it answers.
ghost use Rattle.std.specs.Prelude.{◌≡◌};
ghost use Rattle.joining.specs.Joining.{clipped, clipped_of};
ghost use Rattle.joining.specs.Linked.{capped};

use crate::Heard;

const MOST: f32 = 1024.0;

// Held from above.
pub fn cap(x: f32) -> f32
    ensures { result ≡ capped x }
{
    if x <= MOST { x } else { MOST }
}

pub fn clip(x: f32) -> f32
    ensures { result ≡ clipped x }
{
    let y = cap(x);
    if y >= -MOST { y } else { -MOST }
}

// What was heard of one bit.
pub fn clip_heard(h: Heard) -> Heard
    ensures { result ≡ clipped_of h }
{
    match h {
        Heard::Nothing => Heard::Nothing,
        Heard::Once(x) => Heard::Once(clip(x)),
        Heard::Joined(x, copies) => Heard::Joined(clip(x), copies),
    }
}
