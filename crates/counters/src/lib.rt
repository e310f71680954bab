// The four counters that document 002 lists apart; and why a call refuses.
// Each counter is a type of its own, so that none is taken for another; a number is taken out of one only where a step defines it.
#![tactic(auto)]

ghost use Rattle.std.specs.Prelude.{◌≡◌, ◌+◌, ◌-◌, ◌%◌, ◌≤◌, ◌<◌, ltb};
ghost use Rattle.counters.specs.Counting.{among};

pub mod refusal;

// Whether k is one of 1 to n.
pub fn is_among(k: u32, n: u16) -> bool
    ensures { result ≡ among k n }
{
    if k == 0 { false } else { k <= n as u32 }
}

// The number of a bit in its channel, counted from 1.
#[derive(Clone, Copy)]
pub struct BitNumber(pub u32);

impl BitNumber {
    // Bits 1, 2, .. of a segment stand one after the other, from index 0 on.
    pub fn index(self) -> usize
        requires { 0 < self.0 }
        ensures { result ≡ self.0 - 1 }
    {
        (self.0 - 1) as usize
    }

    // Whether a segment of n bits has it.
    pub fn is_among(self, n: u64) -> bool
        ensures { result ≡ among self.0 n }
    {
        if self.0 == 0 {
            false
        } else {
            self.0 as u64 <= n
        }
    }

    // Handed out, to C or to a text.
    pub fn number(self) -> u64
        ensures { result ≡ self.0 }
    {
        self.0 as u64
    }
}

// The number of a transport channel (TrCH), counted from 1.
#[derive(Clone, Copy)]
pub struct TrchNumber(pub u32);

impl TrchNumber {
    // Channels 1, 2, .. stand one after the other, from index 0 on.
    pub fn index(self) -> usize
        requires { 0 < self.0 }
        ensures { result ≡ self.0 - 1 }
    {
        (self.0 - 1) as usize
    }

    // The channel that stands at an index; a sheet counts its channels by 16 bits.
    pub fn at(i: usize) -> TrchNumber
        requires { i < 65536 }
        ensures { result.0 ≡ i + 1 }
    {
        TrchNumber((i + 1) as u32)
    }

    // Whether it is one of n channels.
    pub fn is_among(self, n: u16) -> bool
        ensures { result ≡ among self.0 n }
    {
        is_among(self.0, n)
    }

    // Handed out, to C or to a text.
    pub fn number(self) -> u64
        ensures { result ≡ self.0 }
    {
        self.0 as u64
    }
}

// The number of a physical channel (PhCH) in its slot, counted from 1.
#[derive(Clone, Copy)]
pub struct PhchNumber(pub u32);

impl PhchNumber {
    // PhCHs 1, 2, .. of a slot stand one after the other, from index 0 on.
    pub fn index(self) -> usize
        requires { 0 < self.0 }
        ensures { result ≡ self.0 - 1 }
    {
        (self.0 - 1) as usize
    }

    // Whether it is one of a slot's n.
    pub fn is_among(self, n: u16) -> bool
        ensures { result ≡ among self.0 n }
    {
        is_among(self.0, n)
    }
}

// The frame number, 0 to 255.
#[derive(Clone, Copy)]
pub struct FrameNumber(pub u32);

impl FrameNumber {
    // n = frame number mod F, counted from 0.
    pub fn within(self, f: u64) -> usize
        requires { 0 < f }
        ensures { (result ≡ self.0 % f) × (result < f) }
    {
        (self.0 as u64 % f) as usize
    }

    // Whether it comes after `last`.
    pub fn is_over(self, last: u32) -> bool
        ensures { result ≡ ltb last self.0 }
    {
        self.0 > last
    }

    // Handed out, to a text.
    pub fn number(self) -> u64
        ensures { result ≡ self.0 }
    {
        self.0 as u64
    }
}
