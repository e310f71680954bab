// The sheet lister: reads at most one byte more than the longest sheet in form has, and prints the listing. What follows is not looked at.
#![tactic(auto)]

use sheet::counts::LONGEST_FORM;
use std::io;

fn main(rt: HostRuntime) -> io::Result<()> {
    let mut buffer = [0u8; LONGEST_FORM + 1];
    let n = input::read_full(&rt, &mut buffer)?;
    let listing = listing::list_sheet(&buffer[..n]);
    rt.write_all(&listing.bytes[..listing.len])
}
