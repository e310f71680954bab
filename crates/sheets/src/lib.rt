// A sheet is read and written.
#![tactic(auto)]

ghost use Rattle.std.specs.Prelude.{◌≡◌};
ghost use Rattle.counters.specs.Refusals.{answer_number, answer_index, at_of, answer_in};
ghost use Rattle.sheet.specs.Numbers.{read_left, read_answer};
ghost use Rattle.writing.specs.Written.{length_answer};
ghost use Rattle.looking.specs.Outcome.{outcome};
ghost use Rattle.sheets.specs.Sheets.{write_into};

pub mod flat;

use counters::refusal::Refusal;
use sheet::Sheet;
use sheet::reading::read_sheet;
use writing::written;

// The fields of a sheet's bytes, or why they are refused.
pub fn sheet_read(bytes: &[u8]) -> Result<Sheet, Refusal>
    ensures { (read_left result ≡ read_answer bytes.now) × (answer_index result ≡ 0) }
{
    read_sheet(bytes)
}

// How many bytes the sheet of these fields has, or why they are refused.
pub fn sheet_length(fields: &Sheet) -> Result<u64, Refusal>
    ensures { answer_in result ≡ length_answer fields.now }
{
    written::sheet_length(fields)
}

// Writes the sheet of these fields into a buffer of exactly its length, and answers that.
pub fn sheet_write(fields: &Sheet, out: &mut [u8]) -> Result<u64, Refusal>
    ensures { outcome (answer_number result) (at_of result) out.new ≡ write_into fields.now out.old }
{
    written::write_sheet(fields, out)
}
