// Steps 1 to 3, equalisation, first interleaving and segmentation, and step 8, second interleaving; and their undoing.
#![tactic(auto)]

ghost use Rattle.std.specs.Prelude.{◌≡◌, ◌≤◌};
ghost use Rattle.sheet.specs.Counts.{most_tti, most_frames};
ghost use Rattle.sheet.specs.Sizes.{frames_in};

pub mod direction;
pub mod first;
pub mod second;
pub mod whole;

// F of a TTI, as an index.
fn frames(tti: usize) -> usize
    requires { tti ≤ most_tti }
    ensures { (result ≡ frames_in tti) × (1 ≤ result) × (result ≤ most_frames) }
{
    sheet::sizes::frames(tti as u16) as usize
}
