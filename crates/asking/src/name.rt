// The name of a place: nothing is built.
ghost use Rattle.std.specs.Prelude.{◌≡◌, [], ◌∷◌, IfOk, not, ltb};
ghost use Rattle.counters.specs.Lines.{line};
ghost use Rattle.counters.specs.Refusals.{Refuses, answer_index};
ghost use Rattle.naming.specs.Name.{name_of, name_in, has_place};
ghost use Rattle.looking.specs.Looking.{last_frame};
ghost use Rattle.asking.specs.Naming.{naming_left, name_answer};

use counters::refusal::Refusal;
use counters::{FrameNumber, PhchNumber};
use looking::check_frame;
use naming::{Place, PlaceName};
use opening::{Opened, with_sheet};

// What is asked behind the sheet's own numbers: 9, then 10; and the name.
fn find_name(opened: &Opened, frame: FrameNumber, place: Place) -> Result<PlaceName, Refusal>
    ensures number { Refuses (line (ltb last_frame frame.0) 9 ∷ line (not (has_place opened.now.fields place.subframe place.slot place.phch.0 place.place)) 10 ∷ []) result }
    ensures name { IfOk result (λ n. name_in n ≡ name_of opened.now.fields frame.0 place.subframe place.slot place.phch.0 place.place) }
{
    check_frame(frame)?;
    if place.exists(&opened.fields) {
        Ok(place.name(opened, frame))
    } else {
        Err(Refusal::Missing)
    }
}

// Which copy of which bit of which channel stands at a place.
pub fn name(
    bytes: &[u8],
    frame: FrameNumber,
    subframe: u32,
    slot: u32,
    phch: PhchNumber,
    place: u32,
) -> Result<PlaceName, Refusal>
    ensures { (naming_left result ≡ name_answer bytes.now frame.0 subframe slot phch.0 place) × (answer_index result ≡ 0) }
{
    let place = Place {
        subframe,
        slot,
        phch,
        place,
    };
    with_sheet(bytes, |opened| find_name(opened, frame, place))
}
