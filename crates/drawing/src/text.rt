// A line of text in the picture.
use std::fmt::Display;
use std::io;
use std::io::Write;

pub fn say_text<W: Write>(
    out: &mut W,
    class: &str,
    x: u64,
    y: u64,
    text: impl Display + Drop,
) -> io::Result<()> {
    writeln!(
        out,
        "<text class=\"{class}\" x=\"{x}\" y=\"{y}\">{text}</text>"
    )
}
