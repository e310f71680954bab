// The calls of `ummervia` as C links them, under the names and with the clauses that they have there; include/ummervia.h declares them. A slice is a
// pointer and a length, further answers are written through pointers, on a refusal as zeros.
#![tactic(auto)]

ghost use Rattle.std.specs.Prelude.{◌≡◌};
ghost use Rattle.looking.specs.Outcome.{outcome};
ghost use Rattle.sheets.specs.Sheets.{read_into, answer_made, length_from, write_from};
ghost use Rattle.asking.specs.Naming.{name_left, name_answer};
ghost use Rattle.asking.specs.Part.{part_made, part_answer};
ghost use Rattle.asking.specs.Asking.{sizes_made, sizes_answer, channel_made, channel_answer};
ghost use Rattle.sending.specs.Building.{build_into, multiplex_into, spread_into};
ghost use Rattle.receiving.specs.Receiving.{gather_into, take_into, finish_into};
ghost use Rattle.receiving.specs.Listening.{heard_answer, numbers, heard_numbers, link_answer, link_made};

use ummervia::{exports, exports_home};

#[unsafe(no_mangle)]
pub extern "C" fn umv_sheet_read(bytes: &[u8], fields: &mut [u16], at: &mut u64) -> u32
    ensures { outcome result at.new fields.new ≡ read_into bytes.now fields.old }
{
    exports::umv_sheet_read(bytes, fields, at)
}

#[unsafe(no_mangle)]
pub extern "C" fn umv_sheet_length(fields: &[u16], at: &mut u64) -> u32
    ensures { answer_made result at.new ≡ length_from fields.now }
{
    exports::umv_sheet_length(fields, at)
}

#[unsafe(no_mangle)]
pub extern "C" fn umv_sheet_write(fields: &[u16], bytes: &mut [u8], at: &mut u64) -> u32
    ensures { outcome result at.new bytes.new ≡ write_from fields.now bytes.old }
{
    exports::umv_sheet_write(fields, bytes, at)
}

#[unsafe(no_mangle)]
pub extern "C" fn umv_sizes(
    bytes: &[u8],
    channels: &mut u64,
    slots: &mut u64,
    contents: &mut u64,
    capacity: &mut u64,
    joined: &mut u64,
) -> u32
    ensures { sizes_made result channels.new slots.new contents.new capacity.new joined.new ≡ sizes_answer bytes.now }
{
    exports::umv_sizes(bytes, channels, slots, contents, capacity, joined)
}

#[unsafe(no_mangle)]
pub extern "C" fn umv_channel(
    bytes: &[u8],
    trch: u32,
    f: &mut u64,
    e: &mut u64,
    n: &mut u64,
    v: &mut u64,
) -> u32
    ensures { channel_made result f.new e.new n.new v.new ≡ channel_answer bytes.now trch }
{
    exports::umv_channel(bytes, trch, f, e, n, v)
}

#[unsafe(no_mangle)]
pub extern "C" fn umv_build(
    bytes: &[u8],
    frame_number: u32,
    contents: &[u8],
    frame: &mut [u8],
    at: &mut u64,
) -> u32
    ensures { outcome result at.new frame.new ≡ build_into bytes.now frame_number contents.now frame.old }
{
    exports::umv_build(bytes, frame_number, contents, frame, at)
}

#[unsafe(no_mangle)]
pub extern "C" fn umv_multiplex(
    bytes: &[u8],
    frame_number: u32,
    contents: &[u8],
    multiplexed: &mut [u8],
    at: &mut u64,
) -> u32
    ensures { outcome result at.new multiplexed.new ≡ multiplex_into bytes.now frame_number contents.now multiplexed.old }
{
    exports::umv_multiplex(bytes, frame_number, contents, multiplexed, at)
}

#[unsafe(no_mangle)]
pub extern "C" fn umv_spread(
    bytes: &[u8],
    multiplexed: &[u8],
    frame: &mut [u8],
    at: &mut u64,
) -> u32
    ensures { outcome result at.new frame.new ≡ spread_into bytes.now multiplexed.now frame.old }
{
    exports::umv_spread(bytes, multiplexed, frame, at)
}

#[unsafe(no_mangle)]
pub extern "C" fn umv_part(
    bytes: &[u8],
    trch: u32,
    multiplexed_len: u64,
    start: &mut u64,
    length: &mut u64,
) -> u32
    ensures { part_made result start.new length.new ≡ part_answer bytes.now trch multiplexed_len }
{
    exports::umv_part(bytes, trch, multiplexed_len, start, length)
}

#[unsafe(no_mangle)]
pub extern "C" fn umv_name(
    bytes: &[u8],
    frame_number: u32,
    subframe: u32,
    slot: u32,
    phch: u32,
    place: u32,
    trch: &mut u64,
    bit: &mut u64,
    copy: &mut u64,
) -> u32
    ensures { name_left result trch.new bit.new copy.new ≡ name_answer bytes.now frame_number subframe slot phch place }
{
    exports::umv_name(
        bytes,
        frame_number,
        subframe,
        slot,
        phch,
        place,
        trch,
        bit,
        copy,
    )
}

#[unsafe(no_mangle)]
pub extern "C" fn umv_gather(
    bytes: &[u8],
    frame: &[f32],
    multiplexed: &mut [f32],
    at: &mut u64,
) -> u32
    ensures { outcome result at.new multiplexed.new ≡ gather_into bytes.now frame.now multiplexed.old }
{
    exports_home::umv_gather(bytes, frame, multiplexed, at)
}

#[unsafe(no_mangle)]
pub extern "C" fn umv_take_back(
    bytes: &[u8],
    frame_number: u32,
    frame: &[f32],
    joined: &mut [f32],
    at: &mut u64,
) -> u32
    ensures { outcome result at.new joined.new ≡ take_into bytes.now frame_number frame.now joined.old }
{
    exports_home::umv_take_back(bytes, frame_number, frame, joined, at)
}

#[unsafe(no_mangle)]
pub extern "C" fn umv_finish(
    bytes: &[u8],
    trch: u32,
    joined: &[f32],
    coded: &mut [f32],
    at: &mut u64,
) -> u32
    ensures { outcome result at.new coded.new ≡ finish_into bytes.now trch joined.now coded.old }
{
    exports_home::umv_finish(bytes, trch, joined, coded, at)
}

#[unsafe(no_mangle)]
pub extern "C" fn umv_heard(
    bytes: &[u8],
    frame_number: u32,
    frame: &[f32],
    trch: u32,
    bit: u32,
    at: &mut u64,
    value: &mut f32,
    copies: &mut u64,
) -> u32
    ensures { numbers result at.new value.new copies.new ≡ heard_numbers (heard_answer bytes.now frame_number frame.now trch bit) }
{
    exports_home::umv_heard(bytes, frame_number, frame, trch, bit, at, value, copies)
}

#[unsafe(no_mangle)]
pub extern "C" fn umv_link(
    bytes: &[u8],
    frame_number: u32,
    frame: &[f32],
    trch: u32,
    at: &mut u64,
    least: &mut f32,
    greatest: &mut f32,
    punctured: &mut u64,
) -> u32
    ensures { link_made result at.new least.new greatest.new punctured.new ≡ link_answer bytes.now frame_number frame.now trch }
{
    exports_home::umv_link(
        bytes,
        frame_number,
        frame,
        trch,
        at,
        least,
        greatest,
        punctured,
    )
}
