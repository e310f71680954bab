// Steps 1 to 7: what each channel sends in a frame, channel after channel.
ghost use Rattle.std.specs.Prelude.{◌≡◌, ◌<◌, length};
ghost use Rattle.sheet.specs.Fields.{tti_of, encoded_of};
ghost use Rattle.sheet.specs.Sizes.{size_of, encoded_all, capacity_all};
ghost use Rattle.matching.specs.Shares.{share_of};
ghost use Rattle.pattern.specs.Pattern.{as_is};
ghost use Rattle.interleaving.specs.First.{equalised};
ghost use Rattle.frame.specs.Frame.{sent_of, multiplexed_bits};

use crate::walking::walk_of;
use counters::FrameNumber;
use opening::Opened;
use sheet::sizes::frames;

// The bits that channel i sends: the frame's segment is every F-th of its bits, from the frame's column on. With F = 1 there is one column, and
// nothing is worked out for it.
fn send(contents: &[u8], opened: &Opened, i: usize, frame: FrameNumber, out: &mut [u8])
    requires { (i < opened.now.fields.channels) × (length contents.now ≡ encoded_of opened.now.fields i) × (length out.old ≡ share_of opened.now.fields i) }
    ensures { out.new ≡ sent_of as_is opened.now.fields frame.0 i (equalised 0 (tti_of opened.now.fields i) (size_of opened.now.fields i) contents.now) }
{
    let n = u64::from(opened.sizes[i]);
    let tti = opened.fields.tti[i];
    let w = walk_of(&opened.fields, i, n, out.len() as u64, tti, frame);
    if tti == 0 {
        pattern::match_rate(contents, w.n, 0, 1, out, w.e, w.d);
    } else {
        let f = frames(tti);
        let k = frame.within(f);
        let p = orders::column(usize::from(tti), k);
        pattern::match_rate(contents, w.n, p, f as usize, out, w.e, w.d);
    }
}

// Channel after channel.
#[tactic(auto, using(opening::proofs::OpenLaws::cut_rises, crate::proofs::SendLaws::cut_within, crate::proofs::SendLaws::content_within))]
pub fn multiplex_bits(contents: &[u8], opened: &Opened, frame: FrameNumber, out: &mut [u8])
    requires { (length contents.now ≡ encoded_all opened.now.fields) × (length out.old ≡ capacity_all opened.now.fields) }
    ensures { out.new ≡ multiplexed_bits opened.now.fields frame.0 contents.now }
{
    let mut from: usize = 0;
    for i in 0..usize::from(opened.fields.channels) {
        let to = from + usize::from(opened.fields.e[i]);
        let a = usize::from(opened.cuts[i]);
        let z = usize::from(opened.cuts[i + 1]);
        send(&contents[from..to], opened, i, frame, &mut out[a..z]);
        from = to;
    }
}
