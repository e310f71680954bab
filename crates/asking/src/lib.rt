// What a sheet's numbers are: its sizes, and those of one channel. A part and a name are asked for in the modules.
#![tactic(auto)]

ghost use Rattle.std.specs.Prelude.{◌≡◌, ◌-◌, ◌<◌, [], ◌∷◌, IfOk};
ghost use Rattle.counters.specs.Lines.{line};
ghost use Rattle.counters.specs.Refusals.{Refuses, answer_index};
ghost use Rattle.looking.specs.Looking.{no_trch};
ghost use Rattle.asking.specs.Asking.{sizes_given, sizes_in, no_sizes, sizes_left, sizes_answer, channel_given, channel_in, channel_left, channel_answer};

pub mod name;
pub mod part;

use counters::TrchNumber;
use counters::refusal::Refusal;
use looking::find_trch;
use opening::{Opened, with_sheet};
use sheet::sizes::frames;

// The sizes that a caller lends buffers by.
#[derive(Clone, Copy)]
pub struct SheetSizes {
    // I and T.
    pub channels: u64,
    pub slots: u64,
    // The sum of E, D, and the sum of T_i.
    pub contents: u64,
    pub capacity: u64,
    pub joined: u64,
}

impl SheetSizes {
    // What C is told where the number is not 0.
    pub fn none() -> SheetSizes
        ensures { sizes_given result ≡ no_sizes 0 }
    {
        SheetSizes {
            channels: 0,
            slots: 0,
            contents: 0,
            capacity: 0,
            joined: 0,
        }
    }
}

// F, E, N and V of a channel.
#[derive(Clone, Copy)]
pub struct ChannelSizes {
    pub f: u64,
    pub e: u64,
    pub n: u64,
    pub v: u64,
}

fn sizes_of(opened: &Opened) -> SheetSizes
    ensures { sizes_given result ≡ sizes_in opened.now.fields }
{
    let fields = &opened.fields;
    SheetSizes {
        channels: u64::from(fields.channels),
        slots: u64::from(fields.slots),
        contents: fields.all_encoded(),
        capacity: opened.capacity(),
        joined: fields.all_equalised(),
    }
}

// The sizes of a sheet.
pub fn sizes(bytes: &[u8]) -> Result<SheetSizes, Refusal>
    ensures { (sizes_left result ≡ sizes_answer bytes.now) × (answer_index result ≡ 0) }
{
    with_sheet(bytes, |opened| Ok(sizes_of(opened)))
}

fn channel_of(opened: &Opened, i: usize) -> ChannelSizes
    requires { i < opened.now.fields.channels }
    ensures { channel_given result ≡ channel_in opened.now.fields i }
{
    let fields = &opened.fields;
    ChannelSizes {
        f: frames(fields.tti[i]),
        e: u64::from(fields.e[i]),
        n: u64::from(opened.sizes[i]),
        v: opened.share(i),
    }
}

// 10; and the numbers of the channel.
fn find_channel(opened: &Opened, trch: TrchNumber) -> Result<ChannelSizes, Refusal>
    ensures number { Refuses (line (no_trch opened.now.fields trch.0) 10 ∷ []) result }
    ensures sizes { IfOk result (λ c. channel_given c ≡ channel_in opened.now.fields (trch.0 - 1)) }
{
    let i = find_trch(&opened.fields, trch)?;
    Ok(channel_of(opened, i))
}

// F, E, N and V of a channel.
pub fn channel(bytes: &[u8], trch: TrchNumber) -> Result<ChannelSizes, Refusal>
    ensures { (channel_left result ≡ channel_answer bytes.now trch.0) × (answer_index result ≡ 0) }
{
    with_sheet(bytes, |opened| find_channel(opened, trch))
}
