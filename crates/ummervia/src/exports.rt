// The calls in the form in which C has them, which crate ummervia_c exports: further answers are written through references, on a refusal as zeros.
ghost use Rattle.std.specs.Prelude.{◌≡◌};
ghost use Rattle.counters.specs.Refusals.{answer_number, at_of, answer_in};
ghost use Rattle.looking.specs.Outcome.{outcome};
ghost use Rattle.sheets.specs.Sheets.{read_into, answer_made, length_from, write_from};
ghost use Rattle.asking.specs.Naming.{name_left, name_answer};
ghost use Rattle.asking.specs.Part.{part_made, part_answer};
ghost use Rattle.asking.specs.Asking.{sizes_made, sizes_answer, channel_made, channel_answer};
ghost use Rattle.sending.specs.Building.{build_into, multiplex_into, spread_into};

use crate::telling::{number, tell};
use asking::name::name;
use asking::part::{PartSpan, part};
use asking::{ChannelSizes, SheetSizes, channel, sizes};
use counters::refusal::Refusal;
use counters::{BitNumber, FrameNumber, PhchNumber, TrchNumber};
use looking::check_length;
use naming::PlaceName;
use sending::{build, multiplex, spread};
use sheets::flat::{FLAT, lay_sheet, take_sheet};
use sheets::{sheet_length, sheet_read, sheet_write};

// The three calls whose fields are a row of numbers.
fn read_row(bytes: &[u8], row: &mut [u16]) -> Result<u64, Refusal>
    ensures { outcome (answer_number result) (at_of result) row.new ≡ read_into bytes.now row.old }
{
    let fields = sheet_read(bytes)?;
    check_length(row.len(), FLAT as u64)?;
    lay_sheet(&fields, row);
    Ok(FLAT as u64)
}

fn length_row(row: &[u16]) -> Result<u64, Refusal>
    ensures { answer_in result ≡ length_from row.now }
{
    check_length(row.len(), FLAT as u64)?;
    sheet_length(&take_sheet(row))
}

fn write_row(row: &[u16], bytes: &mut [u8]) -> Result<u64, Refusal>
    ensures { outcome (answer_number result) (at_of result) bytes.new ≡ write_from row.now bytes.old }
{
    check_length(row.len(), FLAT as u64)?;
    sheet_write(&take_sheet(row), bytes)
}

pub fn umv_sheet_read(bytes: &[u8], fields: &mut [u16], at: &mut u64) -> u32
    ensures { outcome result at.new fields.new ≡ read_into bytes.now fields.old }
{
    tell(read_row(bytes, fields), at)
}

pub fn umv_sheet_length(fields: &[u16], at: &mut u64) -> u32
    ensures { answer_made result at.new ≡ length_from fields.now }
{
    tell(length_row(fields), at)
}

pub fn umv_sheet_write(fields: &[u16], bytes: &mut [u8], at: &mut u64) -> u32
    ensures { outcome result at.new bytes.new ≡ write_from fields.now bytes.old }
{
    tell(write_row(fields, bytes), at)
}

pub fn umv_sizes(
    bytes: &[u8],
    channels: &mut u64,
    slots: &mut u64,
    contents: &mut u64,
    capacity: &mut u64,
    joined: &mut u64,
) -> u32
    ensures { sizes_made result channels.new slots.new contents.new capacity.new joined.new ≡ sizes_answer bytes.now }
{
    let answer = sizes(bytes);
    let found = answer.unwrap_or(SheetSizes::none());
    *channels = found.channels;
    *slots = found.slots;
    *contents = found.contents;
    *capacity = found.capacity;
    *joined = found.joined;
    number(answer)
}

pub fn umv_channel(
    bytes: &[u8],
    trch: u32,
    f: &mut u64,
    e: &mut u64,
    n: &mut u64,
    v: &mut u64,
) -> u32
    ensures { channel_made result f.new e.new n.new v.new ≡ channel_answer bytes.now trch }
{
    let answer = channel(bytes, TrchNumber(trch));
    let found = answer.unwrap_or(ChannelSizes {
        f: 0,
        e: 0,
        n: 0,
        v: 0,
    });
    *f = found.f;
    *e = found.e;
    *n = found.n;
    *v = found.v;
    number(answer)
}

pub fn umv_build(
    bytes: &[u8],
    frame_number: u32,
    contents: &[u8],
    frame: &mut [u8],
    at: &mut u64,
) -> u32
    ensures { outcome result at.new frame.new ≡ build_into bytes.now frame_number contents.now frame.old }
{
    tell(build(bytes, FrameNumber(frame_number), contents, frame), at)
}

pub fn umv_multiplex(
    bytes: &[u8],
    frame_number: u32,
    contents: &[u8],
    multiplexed: &mut [u8],
    at: &mut u64,
) -> u32
    ensures { outcome result at.new multiplexed.new ≡ multiplex_into bytes.now frame_number contents.now multiplexed.old }
{
    tell(
        multiplex(bytes, FrameNumber(frame_number), contents, multiplexed),
        at,
    )
}

pub fn umv_spread(bytes: &[u8], multiplexed: &[u8], frame: &mut [u8], at: &mut u64) -> u32
    ensures { outcome result at.new frame.new ≡ spread_into bytes.now multiplexed.now frame.old }
{
    tell(spread(bytes, multiplexed, frame), at)
}

pub fn umv_part(
    bytes: &[u8],
    trch: u32,
    multiplexed_len: u64,
    start: &mut u64,
    length: &mut u64,
) -> u32
    ensures { part_made result start.new length.new ≡ part_answer bytes.now trch multiplexed_len }
{
    let answer = part(bytes, TrchNumber(trch), multiplexed_len);
    let found = answer.unwrap_or(PartSpan {
        start: 0,
        length: 0,
    });
    *start = found.start;
    *length = found.length;
    number(answer)
}

pub fn umv_name(
    bytes: &[u8],
    frame_number: u32,
    subframe: u32,
    slot: u32,
    phch: u32,
    place: u32,
    trch: &mut u64,
    bit: &mut u64,
    copy: &mut u64,
) -> u32
    ensures { name_left result trch.new bit.new copy.new ≡ name_answer bytes.now frame_number subframe slot phch place }
{
    let answer = name(
        bytes,
        FrameNumber(frame_number),
        subframe,
        slot,
        PhchNumber(phch),
        place,
    );
    let found = answer.unwrap_or(PlaceName {
        trch: TrchNumber(0),
        bit: BitNumber(0),
        copy: 0,
    });
    *trch = found.trch.number();
    *bit = found.bit.number();
    *copy = found.copy;
    number(answer)
}
