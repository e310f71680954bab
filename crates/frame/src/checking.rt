// Number 12: the bytes of contents are bits.
ghost use Rattle.std.specs.Prelude.{◌≡◌, ◌<◌, length, MatchOption};
ghost use Rattle.laws.specs.Above.{NoneAbove};
ghost use Rattle.frame.specs.Bit.{first_bad};

// No byte is above it. The loop has no way out, so that the compiler takes many bytes a turn.
fn most(bytes: &[u8]) -> u8
    ensures { NoneAbove bytes.now (length bytes.now) result }
{
    let mut m: u8 = 0;
    for x in bytes {
        m = m.max(*x);
    }
    m
}

// The index of the first byte that is neither 0 nor 1. Where there is none, as in all that is sent, no byte is asked by itself.
pub fn first_bad(bytes: &[u8]) -> Option<usize>
    ensures { MatchOption result (first_bad bytes.now ≡ length bytes.now) (λ i. (i < length bytes.now) × (i ≡ first_bad bytes.now)) }
{
    if most(bytes) <= 1 {
        return None;
    }
    bytes.iter().position(|b| *b > 1)
}
