// Number 10: whether a place exists.
ghost use Rattle.std.specs.Prelude.{◌≡◌};
ghost use Rattle.sheet.specs.Range.{Ranged};
ghost use Rattle.naming.specs.Name.{has_place};

use crate::Place;
use counters::is_among;
use sheet::Sheet;
use sheet::counts::CODES;

impl Place {
    // Whether the sub-frame, the slot, the physical channel in it and the place in that exist.
    #[tactic(auto, unfolding(crate::specs::Name::has_place))]
    pub fn exists(self, fields: &Sheet) -> bool
        requires { Ranged fields.now }
        ensures { result ≡ has_place fields.now self.subframe self.slot self.phch.0 self.place }
    {
        if is_among(self.subframe, fields.subframes() as u16) {
            if is_among(self.slot, fields.slots) {
                let t = (self.slot - 1) as usize;
                if self.phch.is_among(fields.phchs[t]) {
                    let m = CODES * t + self.phch.index();
                    return is_among(self.place, fields.caps[m]);
                }
            }
        }
        false
    }
}
