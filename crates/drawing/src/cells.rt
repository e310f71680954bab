// The cells of one physical channel: what each place looks like, and the runs of places that look the same.
ghost use Rattle.std.specs.Prelude.{◌<◌};

use counters::TrchNumber;
use sheet::counts::CHANNELS;
use std::io::Write;
use std::{fmt, io};

// What a place looks like: the channel that it carries, and whether it has the marks of a copy and of a filler.
#[derive(Clone, Copy)]
pub struct Look {
    pub trch: TrchNumber,
    pub is_copy: bool,
    pub is_filler: bool,
}

// That of no channel's place.
pub const NOTHING: Look = Look {
    trch: TrchNumber(0),
    is_copy: false,
    is_filler: false,
};

// The layers of a picture, drawn one over the other: one for each channel, then the marks. A filler is a black box with a white hole. `Bare` is
// a cell of no channel, for the legend.
#[derive(Clone, Copy)]
pub enum Layer {
    Bare,
    Channel(TrchNumber),
    Copies,
    Fillers,
    Holes,
}

// The class of a layer, which the style sheet colours, and where its strokes lie in the cell.
impl fmt::Display for Layer {
    fn fmt<W: fmt::Write>(&self, f: &mut fmt::Formatter<W>) -> fmt::Result {
        match self {
            Layer::Bare => f.write_str("class=\"c0\""),
            Layer::Channel(trch) => write!(f, "class=\"c{}\"", trch.number()),
            Layer::Copies => f.write_str("class=\"k\" transform=\"translate(0 .33)\""),
            Layer::Fillers => f.write_str("class=\"f\" transform=\"translate(0 -.22)\""),
            Layer::Holes => f.write_str("class=\"h\" transform=\"translate(0 -.22)\""),
        }
    }
}

impl Layer {
    // Whether a place of that look is drawn in it.
    fn has(self, look: Look) -> bool {
        match self {
            Layer::Bare => false,
            Layer::Channel(trch) => look.trch.number() == trch.number(),
            Layer::Copies => look.is_copy,
            Layer::Fillers | Layer::Holes => look.is_filler,
        }
    }

    // One cell, for the legend.
    pub fn say_cell<W: Write>(self, out: &mut W) -> io::Result<()> {
        write!(out, "<path {self} d=\"M0 0h1\"/>")
    }

    // Its runs in a line of cells, in units of cells: `M column row h cells`.
    fn say_runs<W: Write>(self, out: &mut W, row: usize, line: &[Look]) -> io::Result<()> {
        for (column, look) in line.iter().enumerate() {
            let begins = column == 0 || !self.has(line[column - 1]);
            if begins && self.has(*look) {
                let cells = line[column..]
                    .iter()
                    .take_while(|look| self.has(**look))
                    .count();
                write!(out, "M{column} {row}h{cells}")?;
            }
        }
        Ok(())
    }

    // Its path over lines of so many cells, or nothing where no place belongs to it.
    fn say_path<W: Write>(self, out: &mut W, looks: &[Look], cells: usize) -> io::Result<()>
        requires { 0 < cells }
    {
        if !looks.iter().any(|look| self.has(*look)) {
            return Ok(());
        }
        write!(out, "<path {self} d=\"")?;
        for (row, line) in looks.chunks(cells).enumerate() {
            self.say_runs(out, row, line)?;
        }
        writeln!(out, "\"/>")
    }
}

// The cells of places in lines of so many.
pub fn say_cells<W: Write>(out: &mut W, looks: &[Look], cells: usize) -> io::Result<()>
    requires { 0 < cells }
{
    for i in 0..CHANNELS {
        Layer::Channel(TrchNumber::at(i)).say_path(out, looks, cells)?;
    }
    for layer in [Layer::Copies, Layer::Fillers, Layer::Holes] {
        layer.say_path(out, looks, cells)?;
    }
    Ok(())
}
