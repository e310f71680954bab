// Why a call refuses: a line of document 01's table each, under its number there.
ghost use Rattle.std.specs.Prelude.{◌≡◌};
ghost use Rattle.counters.specs.Refusals.{refusal_number, refusal_at};

use std::error::Error;
use std::fmt;

#[derive(Clone, Copy, Debug, PartialEq, Eq)]
pub enum Refusal {
    ShortSheet,
    OtherVersion,
    NoSlots,
    Malformed,
    NoCapacity,
    ManyBits,
    ManyPlaces,
    NoBits,
    LateFrame,
    Missing,
    WrongLength,
    // The index of the first bad value, counted from 0.
    BadValue(u64),
    BadUplink,
    BadSubframe,
}

impl Refusal {
    // Handed out, to C or to a text.
    pub fn number(self) -> u32
        ensures { result ≡ refusal_number self }
    {
        match self {
            Refusal::ShortSheet => 1,
            Refusal::OtherVersion => 2,
            Refusal::NoSlots => 3,
            Refusal::Malformed => 4,
            Refusal::NoCapacity => 5,
            Refusal::ManyBits => 6,
            Refusal::ManyPlaces => 7,
            Refusal::NoBits => 8,
            Refusal::LateFrame => 9,
            Refusal::Missing => 10,
            Refusal::WrongLength => 11,
            Refusal::BadValue(_) => 12,
            Refusal::BadUplink => 13,
            Refusal::BadSubframe => 14,
        }
    }

    // Where the first bad value stands, for C; 0 where no value is bad.
    pub fn at(self) -> u64
        ensures { result ≡ refusal_at self }
    {
        match self {
            Refusal::BadValue(at) => at,
            _ => 0,
        }
    }
}

impl fmt::Display for Refusal {
    fn fmt<W: fmt::Write>(&self, f: &mut fmt::Formatter<W>) -> fmt::Result {
        let meaning = match *self {
            Refusal::ShortSheet => "sheet shorter than 2 bytes",
            Refusal::OtherVersion => "version not 1",
            Refusal::NoSlots => "no slots",
            Refusal::Malformed => {
                "sheet length not what its fields need, or a spare or padding bit set"
            }
            Refusal::NoCapacity => "a capacity is 0",
            Refusal::ManyBits => "sum of all equalised sizes over 60,000",
            Refusal::ManyPlaces => "sum of all capacities, of each sub-frame, over 60,000",
            Refusal::NoBits => "every E is 0",
            Refusal::LateFrame => "frame number not 0 to 255",
            Refusal::Missing => "no such channel, slot, physical channel, place or bit",
            Refusal::WrongLength => "a length is not what the sheet asks for",
            Refusal::BadValue(_) => "a value is no bit, or out of range",
            Refusal::BadUplink => {
                "an uplink slot with more than two codes, or a logarithm over 4"
            }
            Refusal::BadSubframe => "more than 7 slots at 1.28 Mcps",
        };
        f.write_str(meaning)
    }
}

impl Error for Refusal {}
