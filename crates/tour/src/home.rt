// Frames sent, heard with some places silent, and taken back; and what came home.
use crate::stops::{ROOM, Stop, first};
use crate::trouble::Trouble;
use counters::{FrameNumber, TrchNumber};
use sheet::Sheet;
use std::io;
use std::io::Write;
use std::ops::Range;
use ummervia::{finish, sizes, take_back};

// A frame as it is heard, with nothing at the silent places.
fn hear<'r>(frame: &[u8], silent: &Range<usize>, room: &'r mut [f32]) -> &'r [f32] {
    let heard = first(room, frame.len());
    for (i, (value, bit)) in heard.iter_mut().zip(frame).enumerate() {
        *value = if silent.contains(&i) {
            0.0
        } else if *bit == 0 {
            1.0
        } else {
            -1.0
        };
    }
    heard
}

// The frames are sent and heard, the last one with the silence, and taken back.
fn come_home<'r>(stop: &Stop<'_>, room: &'r mut [f32]) -> Result<&'r [f32], Trouble> {
    let joined = first(room, sizes(stop.sheet)?.joined as usize);
    let last = u32::from(stop.last);
    for n in u32::from(stop.first)..=last {
        let number = FrameNumber(n);
        let mut bits = [0u8; ROOM];
        let frame = stop.frame(number, &mut bits)?;
        let silent = if n == last {
            stop.silent.start..stop.silent.end
        } else {
            0..0
        };
        let mut values = [0.0f32; ROOM];
        let heard = hear(frame, &silent, &mut values);
        take_back(stop.sheet, number, heard, joined)?;
    }
    Ok(joined)
}

// What came home of a bit: its copies added.
fn say_value<W: Write>(out: &mut W, value: f32) -> io::Result<()> {
    if value == 0.0 {
        write!(out, " 0")
    } else {
        write!(out, " {value:+}")
    }
}

// A line for each channel; those past I have no bits.
pub fn say_home<W: Write>(out: &mut W, stop: &Stop<'_>, fields: &Sheet) -> Result<(), Trouble> {
    let mut values = [0.0f32; ROOM];
    let joined = come_home(stop, &mut values)?;
    for (i, e) in fields.e.iter().enumerate() {
        if *e > 0 {
            let trch = TrchNumber::at(i);
            let mut room = [0.0f32; ROOM];
            let coded = first(&mut room, usize::from(*e));
            finish(stop.sheet, trch, joined, coded)?;
            write!(out, "{}:", trch.number())?;
            for value in coded.iter() {
                say_value(out, *value)?;
            }
            writeln!(out)?;
        }
    }
    Ok(())
}
