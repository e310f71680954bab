// How the places of a frame are laid out: cells in lines of 1,000 px, the larger the fewer places there are.
ghost use Rattle.std.specs.Prelude.{◌≤◌, ◌<◌};

use sheet::counts::CODES;

#[derive(Clone, Copy)]
pub enum Scale {
    Large,
    Middle,
    Small,
}

// The room above the cells of a slot, for its label and the numbers of columns.
const HEAD: u64 = 26;

// The height of the head above the capacity at index m of the sheet's capacities: the first of each slot has one.
pub fn head(m: usize) -> u64
    ensures { result ≤ 26 }
{
    if m % CODES == 0 { HEAD } else { 0 }
}

impl Scale {
    // That of a frame of d places.
    pub fn of(d: u64) -> Scale {
        match d {
            0..=600 => Scale::Large,
            601..=6000 => Scale::Middle,
            _ => Scale::Small,
        }
    }

    // The cells of a line.
    pub fn line(self) -> u64
        ensures { (50 ≤ result) × (result ≤ 250) }
    {
        match self {
            Scale::Large => 50,
            Scale::Middle => 100,
            Scale::Small => 250,
        }
    }

    // The columns from one that is numbered to the next, which stands 100 px further.
    pub fn step(self) -> u64
        ensures { (0 < result) × (result ≤ 25) }
    {
        self.line() / 10
    }

    // A cell in px.
    pub fn cell_width(self) -> u64
        ensures { result ≤ 20 }
    {
        match self {
            Scale::Large => 20,
            Scale::Middle => 10,
            Scale::Small => 4,
        }
    }

    pub fn cell_height(self) -> u64
        ensures { result ≤ 20 }
    {
        match self {
            Scale::Large => 20,
            Scale::Middle => 12,
            Scale::Small => 8,
        }
    }

    // The room below a PhCH.
    fn gap(self) -> u64
        ensures { result ≤ 8 }
    {
        match self {
            Scale::Large => 8,
            Scale::Middle => 5,
            Scale::Small => 2,
        }
    }

    // The size of labels in px.
    pub fn font(self) -> u64 {
        match self {
            Scale::Large => 12,
            Scale::Middle => 10,
            Scale::Small => 8,
        }
    }

    // The lines of a PhCH of n places.
    pub fn lines(self, n: u16) -> u64
        ensures { result ≤ 65535 }
    {
        u64::from(n).div_ceil(self.line())
    }

    // The number of the place that a line of a PhCH begins with, by the number of lines before it.
    pub fn start(self, rows: u64) -> u64
        requires { rows ≤ 65535 }
    {
        rows * self.line() + 1
    }

    // The height of that many lines in px.
    pub fn height(self, rows: u64) -> u64
        requires { rows ≤ 65535 }
        ensures { result ≤ 1310700 }
    {
        rows * self.cell_height()
    }

    // The height that the capacity n at index m takes; one of 0 is no PhCH.
    pub fn taken(self, m: usize, n: u16) -> u64
        ensures { result ≤ 1400000 }
    {
        if n == 0 {
            return 0;
        }
        head(m) + self.height(self.lines(n)) + self.gap()
    }
}
