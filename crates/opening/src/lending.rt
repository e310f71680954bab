// A sheet's bytes opened, and the opened sheet lent or answered.
ghost use Rattle.std.specs.Prelude.{◌≡◌, IfOk};
ghost use Rattle.std.specs.Fn.{FnOnceTakesAt, FnOnceReturnsAt};
ghost use Rattle.counters.specs.Refusals.{Refuses};
ghost use Rattle.sheet.specs.Fields.{sheet_of};
ghost use Rattle.sheet.specs.Numbers.{read_lines};
ghost use Rattle.opening.specs.Opening.{AsOpened};

use crate::{Opened, sizes};
use counters::refusal::Refusal;
use matching::shares::cuts;
use sheet::fields::read_fields;
use sheet::reading::check_bytes;

// Opens a sheet's bytes and lends the opened sheet to what is then done. Answered, its 744 bytes are moved where the answer is made and twice more where
// it is asked, a tenth to a third of what a call does that answers a few numbers.
pub fn with_sheet<R, F: FnOnce(&Opened) -> Result<R, Refusal>>(
    bytes: &[u8],
    take: F,
) -> Result<R, Refusal>
    requires { (o : Opened) → o.fields ≡ sheet_of bytes.now → FnOnceTakesAt F.FnOnce take o }
    ensures { AsOpened (read_lines bytes.now) bytes.now (λ o. FnOnceReturnsAt F.FnOnce take o result) result }
{
    let fields = read_fields(bytes);
    let w = check_bytes(bytes, &fields)?;
    let d = fields.frame_places(w);
    let opened = Opened {
        fields,
        sizes: sizes(&fields),
        cuts: cuts(&fields, d),
    };
    take(&opened)
}

// The same, answered: what a call begins with that is lent values, beside whose work the moves are little.
pub fn open_sheet(bytes: &[u8]) -> Result<Opened, Refusal>
    ensures number { Refuses (read_lines bytes.now) result }
    ensures opened { IfOk result (λ o. o.fields ≡ sheet_of bytes.now) }
{
    with_sheet(bytes, |opened| Ok(*opened))
}
