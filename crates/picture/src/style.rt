// How the classes of the picture look. Strokes are in units of cells, and dashes begin anew with each run, so that they part its cells.
use drawing::scale::Scale;
use std::io;
use std::io::Write;

// Labels; line starts and columns; the title, slots and the legend. In front of them stands the size of labels in px.
const FONTS: &str = "px;fill:#333}
.n,.o{fill:#666}.n{text-anchor:end}.o{text-anchor:middle;font-size:9px}
.t,.s{font-weight:bold}.t{font-size:15px}.s,.l{font-size:13px}
path{fill:none;stroke-width:.92;stroke-dasharray:.94 .06}
";

// Colours that the colour-blind tell apart: those of Okabe and Ito, with grey for black, on which no mark would be seen; channels 9 to 16 have
// them once more, lighter, but yellow and grey darker. c0 is no channel's.
const COLOURS: &str =
    ".c0{stroke:#ccc}.c1{stroke:#e69f00}.c2{stroke:#56b4e9}.c3{stroke:#009e73}.c4{stroke:#f0e442}
.c5{stroke:#0072b2}.c6{stroke:#d55e00}.c7{stroke:#cc79a7}.c8{stroke:#999}
.c9{stroke:#f3cf80}.c10{stroke:#abdaf4}.c11{stroke:#80cfb9}.c12{stroke:#b3aa33}
.c13{stroke:#80b9d9}.c14{stroke:#eaaf80}.c15{stroke:#e6bcd3}.c16{stroke:#666}
";

const MARKS: &str = ".k{stroke:#000;stroke-width:.26}
.f{stroke:#000;stroke-width:.48;stroke-dasharray:0 .1 .8 .1}
.h{stroke:#fff;stroke-width:.26;stroke-dasharray:0 .26 .48 .26}
";

pub fn say_style<W: Write>(out: &mut W, scale: Scale) -> io::Result<()> {
    let size = scale.font();
    write!(
        out,
        "<style>\ntext{{font-family:sans-serif;font-size:{size}{FONTS}{COLOURS}{MARKS}</style>\n"
    )
}
