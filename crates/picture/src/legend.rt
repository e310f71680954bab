// What stands above the frame: the title, what the marks mean, and each channel's numbers.
ghost use Rattle.std.specs.Prelude.{◌≤◌};

use counters::TrchNumber;
use drawing::cells::Layer;
use drawing::layout::Drawing;
use drawing::text::say_text;
use sheet::counts::CHANNELS;
use std::fmt::Display;
use std::io::Write;
use std::{fmt, io};
use ummervia::{ChannelSizes, channel};

// The middle of the line of the marks and of that of the first channel, and from one channel to the next, in px.
const MARKS: u64 = 56;

pub const FIRST: u64 = 84;

pub const LINE: u64 = 20;

pub fn say_title<W: Write>(out: &mut W, drawing: &Drawing<'_>, capacity: u64) -> io::Result<()> {
    let fields = drawing.fields;
    let uplink = if fields.uplink == 0 { "" } else { " uplink" };
    let rate = if fields.lcr == 0 { "" } else { " of 1.28 Mcps" };
    let number = drawing.frame.number();
    let mode = if fields.mode == 0 {
        "0 (second interleaving over the frame)"
    } else {
        "1 (second interleaving per slot)"
    };
    let frame = format_args!("UTRA TDD{uplink} radio frame{rate}, frame number {number}");
    say_text(
        out,
        "t",
        10,
        26,
        format_args!("{frame}, mode {mode}, D = {capacity} places"),
    )
}

// A cell of the layers, of the size of the legend's text, and the text after it.
fn say_sample<W: Write>(
    out: &mut W,
    x: u64,
    y: u64,
    layers: &[Layer],
    text: impl Display + Drop,
) -> io::Result<()>
    requires { (x ≤ 1000) × (y ≤ 1000) }
{
    write!(out, "<g transform=\"translate({x} {y})scale(16)\">")?;
    for layer in layers {
        layer.say_cell(out)?;
    }
    writeln!(out, "</g>")?;
    say_text(out, "l", x + 22, y + 5, text)
}

// The line of the marks.
pub fn say_marks<W: Write>(out: &mut W) -> io::Result<()> {
    let sent = [Layer::Bare];
    let copied = [Layer::Bare, Layer::Copies];
    let filled = [Layer::Bare, Layer::Fillers, Layer::Holes];
    say_sample(out, 10, MARKS, &sent, "a bit, sent first (copy 0)")?;
    say_sample(
        out,
        220,
        MARKS,
        &copied,
        "sent again (copy 1, 2, ..): a black foot",
    )?;
    say_sample(
        out,
        520,
        MARKS,
        &filled,
        "a filler (its bit number is above E): a hollow box",
    )
}

// A channel's numbers. The TTI in ms is F with a 0 behind it.
#[derive(Clone, Copy)]
struct Numbers {
    trch: TrchNumber,
    of: ChannelSizes,
}

impl fmt::Display for Numbers {
    fn fmt<W: fmt::Write>(&self, f: &mut fmt::Formatter<W>) -> fmt::Result {
        let ChannelSizes { f: frames, e, n, v } = self.of;
        write!(
            f,
            "TrCH {}: TTI {frames}0 ms, E {e}, N {n}, V {v}: ",
            self.trch.number()
        )?;
        // What rate matching does to the channel's segment.
        if v < n {
            write!(f, "punctured, {} bits left out of each frame", n - v)
        } else if n < v {
            write!(f, "repeated, {} further copies in each frame", v - n)
        } else if n == 0 {
            f.write_str("empty")
        } else {
            f.write_str("neither punctured nor repeated")
        }
    }
}

// A line for each channel; those past I are not there.
pub fn say_channels<W: Write>(out: &mut W, sheet: &[u8]) -> io::Result<()> {
    for i in 0..CHANNELS {
        let trch = TrchNumber::at(i);
        if let Ok(of) = channel(sheet, trch) {
            let y = FIRST + LINE * i as u64;
            say_sample(out, 10, y, &[Layer::Channel(trch)], Numbers { trch, of })?;
        }
    }
    Ok(())
}
