// What the tour stops at: four sheets, and what is sent by them.
use crate::trouble::Trouble;
use counters::FrameNumber;
use std::ops::Range;
use ummervia::{build, sizes};

// The most bits or values of anything that a stop sends or takes home. A room of these is lent, and what is put there is a part of it.
pub const ROOM: usize = 70;

// The first n of a room, or all where there are fewer: what is too short the library refuses.
pub fn first<T>(room: &mut [T], n: usize) -> &mut [T] {
    let n = n.min(room.len());
    &mut room[..n]
}

// A sheet and the contents that are sent, as a text of 0 and 1, in the frames from `first` to `last`. Of the last one nothing is heard at the
// silent places, which are counted from 0.
#[derive(Drop)]
pub struct Stop<'a> {
    pub title: &'a str,
    pub sheet: &'a [u8],
    pub contents: &'a str,
    pub first: u8,
    pub last: u8,
    pub silent: Range<usize>,
    pub sending: &'a str,
}

impl Stop<'_> {
    // The last frame's number.
    pub fn last(&self) -> FrameNumber {
        FrameNumber(u32::from(self.last))
    }

    // The bits of the contents.
    pub fn bits<'r>(&self, room: &'r mut [u8]) -> &'r [u8] {
        let bits = first(room, self.contents.len());
        for (bit, digit) in bits.iter_mut().zip(self.contents.bytes()) {
            *bit = u8::from(digit == b'1');
        }
        bits
    }

    // The frame that carries them.
    pub fn frame<'r>(&self, number: FrameNumber, room: &'r mut [u8]) -> Result<&'r [u8], Trouble> {
        let mut bits = [0u8; ROOM];
        let contents = self.bits(&mut bits);
        let frame = first(room, sizes(self.sheet)?.capacity as usize);
        build(self.sheet, number, contents, frame)?;
        Ok(frame)
    }
}

pub const EXAMPLE: Stop<'static> = Stop {
    title: "the document's example",
    sheet: b"\x10\x10\x00\x06\x00\x00\x04",
    contents: "101100",
    first: 0,
    last: 0,
    silent: 1..2,
    sending: "sent; place 2 is silent",
};

// Mode 1; channels of 40, 20 and 10 ms with E 17, 19 and 30, RM 4, 6 and 3; a slot of capacities 7 and 5, one of 14, 10 and 8.
// Channel 1 passes unaltered, 2 is repeated, 3 punctured; a filler of 1 and one of 2 are in the frame, in which every TTI ends.
pub const THREE_CHANNELS: Stop<'static> = Stop {
    title: "three channels over two slots",
    sheet: b"\x1a\x20\x80\x11\x03\x40\x13\x05\x00\x1e\x02\x10\x07\x00\x52\x00\xe0\x0a\x00\x80",
    contents: "101100111000111100110100110010110100111000110010101101001110100010",
    first: 4,
    last: 7,
    silent: 7..12,
    sending: "frames 4 to 7 sent; in frame 7 slot 1 PhCH 2 is silent",
};

// An uplink slot of capacities 7 and 5 and spreading factors 8 and 2. PhCH 2 has one bit of room left at its second turn, and gives the turn up.
pub const TWO_CODES: Stop<'static> = Stop {
    title: "two uplink codes, of spreading factors 8 and 2, which take 1 and 4 bits at their turns",
    sheet: b"\x10\x18\x00\x0c\x00\x16\x00\xe4\x01\x40",
    contents: "110100111001",
    first: 0,
    last: 0,
    silent: 8..12,
    sending: "sent; the first four bits of PhCH 2, places 5 to 2, are silent",
};

// 1.28 Mcps and mode 1; channels of 10 and 20 ms with E 10 and 12, both repeated; in each sub-frame a slot of capacities 3 and 2, one of 4. The ten
// places of slot 1 in both sub-frames are interleaved, and then halved.
pub const TWO_SUBFRAMES: Stop<'static> = Stop {
    title: "two sub-frames of 1.28 Mcps, each slot interleaved over both",
    sheet: b"\x19\x24\x00\x0a\x00\x40\x0c\x00\x10\x03\x00\x20\x00\x40",
    contents: "1011001110011010011001",
    first: 0,
    last: 1,
    silent: 12..14,
    sending: "frames 0 and 1 sent; in frame 1 sub-frame 2 slot 1 PhCH 2 is silent",
};
