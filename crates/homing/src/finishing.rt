// Steps 2 and 1 undone for one channel, out of the buffer of all T_i.
ghost use Rattle.std.specs.Prelude.{◌≡◌, ◌*◌, ◌≤◌, ◌<◌, length};
ghost use Rattle.sheet.specs.Counts.{most_frames};
ghost use Rattle.sheet.specs.Fields.{encoded_of};
ghost use Rattle.sheet.specs.Sizes.{equalised_all};
ghost use Rattle.sheet.specs.Range.{Ranged};
ghost use Rattle.homing.specs.Home.{channel_start, finished_of};

use opening::Opened;
use sheet::Sheet;
use sheet::sizes::equalised;

// Where channel i begins in the buffer: the sum of T_i before it.
fn channel_start(fields: &Sheet, i: usize) -> usize
    requires { Ranged fields.now × (i < fields.now.channels) }
    ensures { (result ≡ channel_start fields.now i) × (result ≤ most_frames * 65535 * i) }
{
    let mut sum: u64 = 0;
    for j in 0..i {
        sum += equalised(fields.e[j], fields.tti[j]);
    }
    sum as usize
}

// The E values of channel i in the coder's order.
pub fn finish_channel(joined: &[f32], opened: &Opened, i: usize, coded: &mut [f32])
    requires { (i < opened.now.fields.channels) × (length joined.now ≡ equalised_all opened.now.fields) × (length coded.old ≡ encoded_of opened.now.fields i) }
    ensures { coded.new ≡ finished_of opened.now.fields i joined.now }
{
    let fields = &opened.fields;
    let n = usize::from(opened.sizes[i]);
    let tti = usize::from(fields.tti[i]);
    let a = channel_start(fields, i);
    let e = a + equalised(fields.e[i], fields.tti[i]) as usize;
    interleaving::first::finish(&joined[a..e], tti, n, coded);
}
