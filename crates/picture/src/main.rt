// The picture of a frame: reads a format sheet on standard input and writes an SVG. The first argument is the frame number, 0 where there is none.
// Each place is a cell in the colour of its channel, by the direct calculation of its name; nothing is built. A refused sheet or frame number
// gives an SVG too, which says the number and what it means.
#![tactic(auto)]

use counters::refusal::Refusal;
use counters::{FrameNumber, PhchNumber};
use drawing::layout::Drawing;
use drawing::pages::Pages;
use drawing::scale::Scale;
use legend::{FIRST, LINE, say_channels, say_marks, say_title};
use refusal::say_refusal;
use sheet::Sheet;
use sheet::counts::LONGEST_FORM;
use std::io;
use std::io::Write;
use style::say_style;
use ummervia::{name, sheet_read, sizes};

mod argument;
mod legend;
mod refusal;
mod style;

fn open_picture<W: Write>(out: &mut W, height: u64) -> io::Result<()> {
    write!(
        out,
        "<svg xmlns=\"http://www.w3.org/2000/svg\" width=\"1120\" height=\"{height}\""
    )?;
    writeln!(out, " viewBox=\"0 0 1120 {height}\">")?;
    writeln!(out, "<rect width=\"100%\" height=\"100%\" fill=\"#fff\"/>")
}

// The fields of the sheet and the places of its frame, or why the sheet or the frame number is refused. The first place is in every frame: its
// name is refused as any other's of the sheet and the frame number is.
fn read(sheet: &[u8], frame: FrameNumber) -> Result<(Sheet, u64), Refusal> {
    name(sheet, frame, 1, 1, PhchNumber(1), 1)?;
    Ok((sheet_read(sheet)?, sizes(sheet)?.capacity))
}

fn draw<W: Write>(out: &mut W, drawing: &Drawing<'_>, capacity: u64) -> io::Result<()> {
    let top = FIRST + LINE * u64::from(drawing.fields.channels);
    open_picture(out, drawing.bottom(top) + 10)?;
    say_style(out, drawing.scale)?;
    say_title(out, drawing, capacity)?;
    say_marks(out)?;
    say_channels(out, drawing.sheet)?;
    drawing.say(out, top)
}

fn picture<W: Write>(out: &mut W, sheet: &[u8], frame: FrameNumber) -> io::Result<()> {
    match read(sheet, frame) {
        Ok((fields, capacity)) => {
            let drawing = Drawing {
                sheet,
                fields: &fields,
                frame,
                scale: Scale::of(capacity),
            };
            draw(out, &drawing, capacity)?;
        }
        Err(refusal) => {
            open_picture(out, 50)?;
            say_refusal(out, refusal)?;
        }
    }
    writeln!(out, "</svg>")
}

fn main(rt: HostRuntime) -> io::Result<()> {
    let frame = argument::asked(&rt);
    let mut buffer = [0u8; LONGEST_FORM + 1];
    let n = input::read_full(&rt, &mut buffer)?;
    let mut out = Pages::new(io::writer(&rt));
    picture(&mut out, &buffer[..n], frame)?;
    out.flush()
}
