// A channel is finished: steps 2 and 1 undone, out of the buffer of all T_i.
ghost use Rattle.std.specs.Prelude.{◌≡◌};
ghost use Rattle.counters.specs.Refusals.{answer_number, at_of};
ghost use Rattle.looking.specs.Outcome.{outcome};
ghost use Rattle.receiving.specs.Receiving.{finish_into};

use counters::TrchNumber;
use counters::refusal::Refusal;
use homing::finishing::finish_channel;
use looking::{check_length, find_trch};
use opening::open_sheet;

// Steps 2 and 1 undone for one channel; the values are not looked at.
pub fn finish(
    bytes: &[u8],
    trch: TrchNumber,
    joined: &[f32],
    coded: &mut [f32],
) -> Result<u64, Refusal>
    ensures { outcome (answer_number result) (at_of result) coded.new ≡ finish_into bytes.now trch.0 joined.now coded.old }
{
    let opened = open_sheet(bytes)?;
    let i = find_trch(&opened.fields, trch)?;
    let encoded = u64::from(opened.fields.e[i]);
    check_length(joined.len(), opened.fields.all_equalised())?;
    check_length(coded.len(), encoded)?;
    finish_channel(joined, &opened, i, coded);
    Ok(encoded)
}
