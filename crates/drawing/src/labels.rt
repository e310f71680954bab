// The labels of a slot and of its physical channels.
ghost use Rattle.std.specs.Prelude.{◌≤◌};

use crate::scale::Scale;
use crate::text::say_text;
use std::io::Write;
use std::{fmt, io};

// Where the cells begin, in px from the left.
pub const LEFT: u64 = 100;

// What the label of a slot says of its spreading factors: those of these logarithms, none in downlink. A logarithm has 3 bits, so that no shift
// goes too far.
#[derive(Clone, Copy)]
struct Factors<'a>(&'a [u16]);

impl fmt::Display for Factors<'_> {
    fn fmt<W: fmt::Write>(&self, f: &mut fmt::Formatter<W>) -> fmt::Result {
        let mut before = ", SF ";
        for log in self.0 {
            let factor = 1u64 << (log % 8);
            write!(f, "{before}{factor}")?;
            before = " and ";
        }
        Ok(())
    }
}

// The head of a slot, above the first of its capacities: its number and the logarithms of its spreading factors, and the numbers of the columns. A
// step is 100 px in every scale.
pub fn say_head<W: Write>(
    out: &mut W,
    scale: Scale,
    y: u64,
    slot: u32,
    logs: &[u16],
) -> io::Result<()>
    requires { y ≤ 680000000 }
{
    let factors = Factors(logs);
    say_text(out, "s", 10, y + 20, format_args!("slot {slot}{factors}"))?;
    for i in 1..11 {
        let x = LEFT + 100 * i - scale.cell_width() / 2;
        say_text(out, "o", x, y + 22, i * scale.step())?;
    }
    Ok(())
}

// The labels of a PhCH of n places whose cells begin at y: its number, and the number of the place that each line begins with.
pub fn say_labels<W: Write>(out: &mut W, scale: Scale, y: u64, phch: u32, n: u16) -> io::Result<()>
    requires { y ≤ 690000000 }
{
    let base = y + scale.cell_height() / 2 + 3;
    say_text(out, "p", 10, base, format_args!("PhCH {phch}"))?;
    for row in 0..scale.lines(n) {
        say_text(
            out,
            "n",
            LEFT - 4,
            base + scale.height(row),
            scale.start(row),
        )?;
    }
    Ok(())
}
