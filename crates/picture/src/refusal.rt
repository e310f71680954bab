// The picture of a refusal: its number and what that means.
use counters::refusal::Refusal;
use std::io;
use std::io::Write;

pub fn say_refusal<W: Write>(out: &mut W, refusal: Refusal) -> io::Result<()> {
    let number = refusal.number();
    write!(
        out,
        "<text x=\"10\" y=\"30\" font-family=\"sans-serif\" font-size=\"15\">"
    )?;
    writeln!(out, "refused: number {number} ({refusal})</text>")
}
