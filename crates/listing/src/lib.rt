// The text that the sheet lister prints, made in a buffer.
#![tactic(auto)]

ghost use Rattle.std.specs.Prelude.{◌≡◌, List, [], ◌++◌, ℕ, ◌+◌, ◌≤◌, ◌<◌, length};
ghost use Rattle.listing.specs.Listing.{room, decimal_of, head_line, with_line, lines_to, refusal, listing_of, text_of, Pushed};

use opening::{Opened, open_sheet};
use sheet::counts::CHANNELS;
use sheet::sizes::frames;

// A first line of at most 87 bytes, and one of at most 113 for each channel.
pub const ROOM: usize = 87 + 113 * CHANNELS;

// A text and its length, zeros past it.
// No collection of a library: `list_sheet`'s clause, and the theorem on it in crate demands, name both fields.
// No `write!`: any call of `fmt::Write` may answer an error, and `list_sheet`'s clause has a text always.
#[derive(Clone, Copy)]
pub struct Text {
    pub bytes: [u8; ROOM],
    pub len: usize,
}

impl Text {
    fn new() -> Text
        ensures { (result ≡ text_of []) × (result.len ≡ 0) }
    {
        Text {
            bytes: [0; ROOM],
            len: 0,
        }
    }

    fn push(&mut self, more: &[u8])
        requires { self.old.len + length more.now ≤ room }
        ensures { Pushed self.old self.new more.now }
    {
        let end = self.len + more.len();
        self.bytes[self.len..end].copy_from_slice(more);
        self.len = end;
    }

    fn push_number(&mut self, n: u64)
        requires { self.old.len + 20 ≤ room }
        ensures { Pushed self.old self.new (decimal_of n) × (length (decimal_of n) ≤ 20) }
    {
        let mut digits = [0u8; 20];
        let k = io::decimal(n, &mut digits);
        self.push(&digits[..k]);
    }

    // A text and then a number.
    fn push_pair(&mut self, more: &[u8], n: u64)
        requires { self.old.len + length more.now + 20 ≤ room }
        ensures { ((l : List ℕ) → self.old ≡ text_of l → self.new ≡ text_of ((l ++ more.now) ++ decimal_of n)) × (self.new.len ≤ self.old.len + length more.now + 20) }
    {
        self.push(more);
        self.push_number(n);
    }
}

fn head_line(opened: &Opened) -> Text
    ensures { (result ≡ text_of (head_line opened.now.fields)) × (result.len ≤ 87) }
{
    let fields = &opened.fields;
    let mut text = Text::new();
    text.push_pair(b"channels ", u64::from(fields.channels));
    text.push_pair(b" slots ", u64::from(fields.slots));
    text.push_pair(b" capacity ", opened.capacity());
    text.push(b"\n");
    text
}

fn channel_line(text: &mut Text, opened: &Opened, i: usize)
    requires { (text.old.len + 113 ≤ room) × (i < opened.now.fields.channels) }
    ensures { ((l : List ℕ) → text.old ≡ text_of l → text.new ≡ text_of (with_line opened.now.fields i l)) × (text.new.len ≤ text.old.len + 113) }
{
    let fields = &opened.fields;
    text.push_number((i + 1) as u64);
    text.push_pair(b" F ", frames(fields.tti[i]));
    text.push_pair(b" E ", u64::from(fields.e[i]));
    text.push_pair(b" N ", u64::from(opened.sizes[i]));
    text.push_pair(b" V ", opened.share(i));
    text.push(b"\n");
}

fn list(opened: &Opened) -> Text
    ensures { (result ≡ text_of (lines_to opened.now.fields opened.now.fields.channels)) × (result.len ≤ room) }
{
    let mut text = head_line(opened);
    for i in 0..usize::from(opened.fields.channels) {
        channel_line(&mut text, opened, i);
    }
    text
}

fn refuse(number: u32) -> Text
    ensures { (result ≡ text_of (refusal number)) × (result.len ≤ room) }
{
    let mut text = Text::new();
    text.push_pair(b"refused ", u64::from(number));
    text.push(b"\n");
    text
}

// The listing of a sheet's bytes, whatever they are.
pub fn list_sheet(bytes: &[u8]) -> Text
    ensures { (result ≡ text_of (listing_of bytes.now)) × (result.len ≤ room) }
{
    match open_sheet(bytes) {
        Ok(opened) => list(&opened),
        Err(refusal) => refuse(refusal.number()),
    }
}
