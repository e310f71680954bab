// The public calls, by name and as C has them: each takes all inputs and asks its refusals in the order of document 01's table.
#![tactic(auto)]

pub mod exports;
pub mod exports_home;
mod telling;

// Each call and its answer, out of the crate that it stands in, and why it refuses. What `name`, `heard` and `link` answer has names of its own here, since
// beside the calls `Heard` and `Link` would differ in the case of a letter alone.
pub use asking::name::name;
pub use asking::part::{PartSpan, part, part_bits, part_soft};
pub use asking::{ChannelSizes, SheetSizes, channel, sizes};
pub use counters::refusal::Refusal;
pub use joining::Heard as HeardAnswer;
pub use joining::linking::Link as LinkAnswer;
pub use naming::PlaceName as NameAnswer;
pub use receiving::finishing::finish;
pub use receiving::listening::{heard, link};
pub use receiving::{gather, take_back};
pub use sending::{build, multiplex, spread};
pub use sheets::{sheet_length, sheet_read, sheet_write};
