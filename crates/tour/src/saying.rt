// What is printed of a sheet and of its frame.
ghost use Rattle.std.specs.Prelude.{◌<◌};
ghost use Rattle.sheet.specs.Counts.{most_capacities};

use crate::stops::{ROOM, Stop};
use crate::trouble::Trouble;
use counters::PhchNumber;
use listing::list_sheet;
use naming::PlaceName;
use sheet::Sheet;
use sheet::counts::CODES;
use std::io::Write;
use std::{fmt, io};
use ummervia::{channel, name};

// The bytes of the sheet, and its listing.
pub fn say_sheet<W: Write>(out: &mut W, stop: &Stop<'_>) -> io::Result<()> {
    write!(out, "\n{}:", stop.title)?;
    for byte in stop.sheet {
        write!(out, " {byte:02x}")?;
    }
    let listing = list_sheet(stop.sheet);
    writeln!(out)?;
    out.write_all(&listing.bytes[..listing.len])
}

// Bits as a group.
#[derive(Clone, Copy)]
struct Bits<'a>(&'a [u8]);

impl fmt::Display for Bits<'_> {
    fn fmt<W: fmt::Write>(&self, f: &mut fmt::Formatter<W>) -> fmt::Result {
        for bit in self.0 {
            write!(f, "{bit}")?;
        }
        Ok(())
    }
}

impl<'a> Bits<'a> {
    // The next n bits, taken from the front of the rest.
    fn next(rest: &mut &'a [u8], n: u16) -> Bits<'a> {
        Bits(rest.split_off(..usize::from(n)).unwrap_or(&[]))
    }
}

// A group for each channel; those past I have no bits.
pub fn say_contents<W: Write>(out: &mut W, fields: &Sheet, contents: &[u8]) -> io::Result<()> {
    write!(out, "contents:")?;
    let mut rest = contents;
    for e in fields.e.iter().filter(|e| **e > 0) {
        let bits = Bits::next(&mut rest, *e);
        write!(out, " {bits}")?;
    }
    writeln!(out)
}

// A physical channel of the frame: its sub-frame where there are two, its slot and its own number, counted from 1, and its capacity.
#[derive(Clone, Copy)]
struct Phch {
    subframe: Option<u32>,
    slot: u32,
    number: u32,
    places: u16,
}

impl Phch {
    // That of n places at index m of the sheet's capacities.
    fn at(subframe: Option<u32>, m: usize, n: u16) -> Phch
        requires { m < most_capacities }
    {
        Phch {
            subframe,
            slot: (m / CODES + 1) as u32,
            number: (m % CODES + 1) as u32,
            places: n,
        }
    }
}

impl fmt::Display for Phch {
    fn fmt<W: fmt::Write>(&self, f: &mut fmt::Formatter<W>) -> fmt::Result {
        if let Some(subframe) = self.subframe {
            write!(f, "sub-frame {subframe} ")?;
        }
        write!(f, "slot {} PhCH {}:", self.slot, self.number)
    }
}

// A name as the legend says.
#[derive(Clone, Copy)]
struct Named {
    name: PlaceName,
    is_filler: bool,
}

impl fmt::Display for Named {
    fn fmt<W: fmt::Write>(&self, f: &mut fmt::Formatter<W>) -> fmt::Result {
        write!(f, "{}.{}", self.name.trch.number(), self.name.bit.number())?;
        if self.name.copy > 0 {
            write!(f, "'{}", self.name.copy)?;
        }
        if self.is_filler {
            f.write_str("*")
        } else {
            Ok(())
        }
    }
}

// The names of the places of a physical channel.
fn say_places<W: Write>(out: &mut W, stop: &Stop<'_>, phch: &Phch) -> Result<(), Trouble> {
    let subframe = phch.subframe.unwrap_or(1);
    let number = PhchNumber(phch.number);
    for place in 1..=u32::from(phch.places) {
        let name = name(stop.sheet, stop.last(), subframe, phch.slot, number, place)?;
        let is_filler = name.bit.number() > channel(stop.sheet, name.trch)?.e;
        write!(out, " {}", Named { name, is_filler })?;
    }
    Ok(())
}

// The bits of each physical channel of a sub-frame, taken from the front of the rest.
fn say_bits<W: Write>(
    out: &mut W,
    fields: &Sheet,
    subframe: Option<u32>,
    rest: &mut &[u8],
) -> io::Result<()> {
    for (m, n) in fields.caps.iter().enumerate() {
        if *n > 0 {
            let phch = Phch::at(subframe, m, *n);
            let bits = Bits::next(rest, *n);
            writeln!(out, "{phch} {bits}")?;
        }
    }
    Ok(())
}

// The names of the places of each.
fn say_names<W: Write>(
    out: &mut W,
    stop: &Stop<'_>,
    fields: &Sheet,
    subframe: Option<u32>,
) -> Result<(), Trouble> {
    for (m, n) in fields.caps.iter().enumerate() {
        if *n > 0 {
            let phch = Phch::at(subframe, m, *n);
            write!(out, "{phch}")?;
            say_places(out, stop, &phch)?;
            writeln!(out)?;
        }
    }
    Ok(())
}

// The last frame, sub-frame for sub-frame: the bits of each physical channel, then the names of its places.
pub fn say_frame<W: Write>(out: &mut W, stop: &Stop<'_>, fields: &Sheet) -> Result<(), Trouble> {
    let subframes: &[Option<u32>] = if fields.lcr == 0 {
        &[None]
    } else {
        &[Some(1), Some(2)]
    };
    let mut room = [0u8; ROOM];
    let mut rest = stop.frame(stop.last(), &mut room)?;
    writeln!(out, "frame number {}, the frame:", stop.last().number())?;
    for subframe in subframes {
        say_bits(out, fields, *subframe, &mut rest)?;
    }
    writeln!(out, "the name of each place:")?;
    for subframe in subframes {
        say_names(out, stop, fields, *subframe)?;
    }
    Ok(())
}
