// The frame: sub-frames one below the other, in each the slots, and in each of these its physical channels.
ghost use Rattle.std.specs.Prelude.{◌+◌, ◌≤◌, ◌<◌};
ghost use Rattle.sheet.specs.Counts.{most_slots};

use crate::cells::{Look, NOTHING, say_cells};
use crate::labels::{LEFT, say_head, say_labels};
use crate::scale::{Scale, head};
use crate::text::say_text;
use counters::{FrameNumber, PhchNumber, TrchNumber};
use sheet::Sheet;
use sheet::counts::{CHANNELS, CODES, MOST_CAPACITY, PAIRED};
use std::io::Write;
use std::{fmt, io};
use ummervia::name;

const MOST_PLACES: usize = MOST_CAPACITY as usize;

// A physical channel of the frame: its sub-frame where there are two, its slot and its own number, counted from 1, and its capacity.
#[derive(Clone, Copy)]
struct Phch {
    subframe: Option<u32>,
    slot: u32,
    number: u32,
    places: u16,
}

// The name of its group in the picture.
impl fmt::Display for Phch {
    fn fmt<W: fmt::Write>(&self, f: &mut fmt::Formatter<W>) -> fmt::Result {
        if let Some(subframe) = self.subframe {
            write!(f, "h{subframe}")?;
        }
        write!(f, "s{}p{}", self.slot, self.number)
    }
}

// A frame to be drawn: its sheet, as bytes and as fields, its number, and how large.
#[derive(Clone, Copy)]
pub struct Drawing<'a> {
    pub sheet: &'a [u8],
    pub fields: &'a Sheet,
    pub frame: FrameNumber,
    pub scale: Scale,
}

// A sub-frame is at most 336,000,000 px high, by 240 capacities of at most 1,400,000 each, so that a second one begins before 340,000,000 and no y
// passes 680,000,000; what is drawn below a y has somewhat more room.
impl Drawing<'_> {
    // The height of the label of a sub-frame: there is none where there is only one.
    fn over(&self) -> u64
        ensures { result ≤ 24 }
    {
        if self.fields.lcr == 0 { 0 } else { 24 }
    }

    // Where a sub-frame ends that begins at y, with its label.
    fn subframe_bottom(&self, y: u64) -> u64
        requires { y ≤ 339000000 }
        ensures { result ≤ y + 336000024 }
    {
        let mut bottom = y + self.over();
        for (m, n) in self.fields.caps.iter().enumerate() {
            bottom += self.scale.taken(m, *n);
        }
        bottom
    }

    // Where the drawing ends that begins at y.
    pub fn bottom(&self, y: u64) -> u64
        requires { y ≤ 1400000 }
        ensures { result ≤ 680000000 }
    {
        let first = self.subframe_bottom(y);
        if self.fields.lcr == 0 {
            return first;
        }
        self.subframe_bottom(first)
    }

    // E of a channel, 0 where there is none.
    fn encoded(&self, trch: TrchNumber) -> u64 {
        if trch.is_among(CHANNELS as u16) {
            return u64::from(self.fields.e[trch.index()]);
        }
        0
    }

    // What a place of a PhCH looks like; where there is no place, nothing is of a channel or marked.
    fn look(&self, phch: Phch, place: u32) -> Look {
        let subframe = phch.subframe.unwrap_or(1);
        let number = PhchNumber(phch.number);
        match name(self.sheet, self.frame, subframe, phch.slot, number, place) {
            Ok(name) => Look {
                trch: name.trch,
                is_copy: name.copy > 0,
                is_filler: name.bit.number() > self.encoded(name.trch),
            },
            Err(_) => NOTHING,
        }
    }

    // What its places look like, at the start of the room lent, which has room for all: no sheet has a longer PhCH.
    fn looks<'r>(&self, phch: Phch, room: &'r mut [Look; MOST_PLACES]) -> &'r [Look] {
        let n = usize::from(phch.places.min(MOST_CAPACITY));
        for (i, look) in room.iter_mut().take(n).enumerate() {
            *look = self.look(phch, i as u32 + 1);
        }
        &room[..n]
    }

    // A PhCH whose cells begin at y: its labels and, in units of cells, the group of these; a line's strokes run through the middle of its cells.
    fn say_phch<W: Write>(
        &self,
        out: &mut W,
        phch: Phch,
        y: u64,
        room: &mut [Look; MOST_PLACES],
    ) -> io::Result<()>
        requires { y ≤ 690000000 }
    {
        let width = self.scale.cell_width();
        let height = self.scale.cell_height();
        let middle = y + height / 2;
        say_labels(out, self.scale, y, phch.number, phch.places)?;
        writeln!(
            out,
            "<g id=\"{phch}\" transform=\"translate({LEFT} {middle})scale({width} {height})\">"
        )?;
        let looks = self.looks(phch, room);
        say_cells(out, looks, self.scale.line() as usize)?;
        writeln!(out, "</g>")
    }

    // The logarithms of the spreading factors of slot t: none in downlink.
    fn logs(&self, t: usize) -> &[u16]
        requires { t < most_slots }
    {
        if self.fields.uplink == 0 {
            return &[];
        }
        let first = PAIRED * t;
        &self.fields.logs[first..first + usize::from(self.fields.phchs[t]).min(PAIRED)]
    }

    // The slots of a sub-frame, from y on: all capacities of the sheet, below the head of a slot its first; one of 0 is no PhCH.
    fn say_slots<W: Write>(
        &self,
        out: &mut W,
        subframe: Option<u32>,
        y: u64,
        room: &mut [Look; MOST_PLACES],
    ) -> io::Result<()>
        requires { y ≤ 340000000 }
    {
        let mut top = y;
        for (m, n) in self.fields.caps.iter().enumerate() {
            let phch = Phch {
                subframe,
                slot: (m / CODES + 1) as u32,
                number: (m % CODES + 1) as u32,
                places: *n,
            };
            if *n > 0 {
                if phch.number == 1 {
                    say_head(out, self.scale, top, phch.slot, self.logs(m / CODES))?;
                }
                self.say_phch(out, phch, top + head(m), room)?;
            }
            top += self.scale.taken(m, *n);
        }
        Ok(())
    }

    // One of two sub-frames, below its label, from y on.
    fn say_subframe<W: Write>(
        &self,
        out: &mut W,
        subframe: u32,
        y: u64,
        room: &mut [Look; MOST_PLACES],
    ) -> io::Result<()>
        requires { y ≤ 339000000 }
    {
        say_text(out, "t", 10, y + 18, format_args!("sub-frame {subframe}"))?;
        self.say_slots(out, Some(subframe), y + self.over(), room)
    }

    // The frame, from y on.
    pub fn say<W: Write>(&self, out: &mut W, y: u64) -> io::Result<()>
        requires { y ≤ 1400000 }
    {
        let mut room = [NOTHING; MOST_PLACES];
        if self.fields.lcr == 0 {
            return self.say_slots(out, None, y, &mut room);
        }
        self.say_subframe(out, 1, y, &mut room)?;
        self.say_subframe(out, 2, self.subframe_bottom(y), &mut room)
    }
}
