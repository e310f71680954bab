// A tour of the library: of four sheets the listing, the frame of some contents, the name of each place of that frame, and what comes home
// of the contents where the frame is heard with a few places silent.
#![tactic(auto)]

use crate::home::say_home;
use crate::saying::{say_contents, say_frame, say_sheet};
use crate::stops::{EXAMPLE, ROOM, Stop, THREE_CHANNELS, TWO_CODES, TWO_SUBFRAMES};
use crate::trouble::Trouble;
use std::io;
use std::io::Write;
use ummervia::sheet_read;

mod home;
mod saying;
mod stops;
mod trouble;

const INTRODUCTION: &str =
    "Places 1, 2, .. stand from left to right. c.b is bit b of channel c, copy 0; c.b'k its copy k; * marks a filler.
A 0 is sent as +1, a 1 as -1. Of a bit its copies come home added; 0 says that none was heard: punctured or silent.
";

// The sheet, the contents, the last frame with the names of its places, and what came home.
fn visit<W: Write>(out: &mut W, stop: &Stop<'_>) -> Result<(), Trouble> {
    say_sheet(out, stop)?;
    let fields = sheet_read(stop.sheet)?;
    say_contents(out, &fields, stop.bits(&mut [0u8; ROOM]))?;
    say_frame(out, stop, &fields)?;
    writeln!(out, "{}; what came home:", stop.sending)?;
    say_home(out, stop, &fields)
}

fn main(rt: HostRuntime) -> io::Result<()> {
    let mut out = io::writer(&rt);
    out.write_all(INTRODUCTION.as_bytes())?;
    for stop in [&EXAMPLE, &THREE_CHANNELS, &TWO_CODES, &TWO_SUBFRAMES] {
        match visit(&mut out, stop) {
            Ok(()) => {}
            Err(Trouble::Refused(refusal)) => writeln!(out, "refused {}", refusal.number())?,
            Err(Trouble::Output(e)) => return Err(e),
        }
    }
    Ok(())
}
