// Number 12: soft values are in range.
ghost use Rattle.std.specs.Prelude.{◌≡◌, ◌<◌, ◌&&◌, true, length, MatchOption};
ghost use Rattle.std.specs.List.{fold};
ghost use Rattle.joining.specs.Range.{in_range, first_out};

// Both ends are allowed; a NaN is not in range.
fn in_range(x: f32) -> bool
    ensures { result ≡ in_range x }
{
    if x >= -65536.0 { x <= 65536.0 } else { false }
}

// Whether none is out of range: the loop has no way out of its middle, so that it compiles to steps of four values.
fn all_in_range(values: &[f32]) -> bool
    ensures { result ≡ fold (λ b x. b && in_range x) true values.now }
{
    values.iter().fold(true, |all, x| all & in_range(*x))
}

// The index of the first value out of range.
pub fn first_out(values: &[f32]) -> Option<usize>
    ensures { MatchOption result (first_out values.now ≡ length values.now) (λ i. (i < length values.now) × (i ≡ first_out values.now)) }
{
    if all_in_range(values) {
        return None;
    }
    values.iter().position(|x| !in_range(*x))
}
