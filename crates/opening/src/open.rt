//! Opening within an allowance.
ghost use Rattle.std.specs.Prelude.{◌≡◌};
ghost use Rattle.std.specs.Option.{option_map};
ghost use Rattle.opentype.specs.Headers.{opened, opened_wide};
ghost use Rattle.opentype.specs.Openings.{opening_left};
ghost use Rattle.context.specs.Meanings.{table_of};
ghost use Rattle.digest.specs.Allowances.{allowance_of};
ghost use Rattle.opening.specs.Opened.{opened_by, told_of};
ghost use Rattle.opening.specs.Wide.{parts_of};

use crate::draws::draw_opening;
use crate::headers::header;
use crate::wide::{WideParts, wide_header};
use answers::Refusal;
use context::subtable::Subtable;
use digest::budget::Budget;

/// The most bytes of a subtable.
const MOST_BYTES: usize = 16_777_216;

/// Opens the subtable that `bytes` are, plain or chained. Refused as unopenable, without a draw: more than 16,777,216
/// bytes, an unknown format, a header part that is not inside. Then its draws are made; refused where one does not fit.
pub fn open<'a>(
    bytes: &'a [u8],
    chained: bool,
    budget: &mut Budget,
) -> Result<Subtable<'a>, Refusal>
    ensures answer { told_of table_of result ≡ opened_by (opened chained bytes.now) (allowance_of budget.old) }
    ensures left { allowance_of budget.new ≡ opening_left (opened chained bytes.now) (allowance_of budget.old) }
{
    if bytes.len() > MOST_BYTES {
        return Err(Refusal::Unopenable);
    }
    grant(header(bytes, chained), budget)
}

/// Opens a subtable of a wide kind, whose parts lie in byte ranges that the caller names. Refused as unopenable, without
/// a draw: more than 16,777,216 bytes, records that are not inside. Then its draws are made.
pub fn open_wide<'a>(
    bytes: &'a [u8],
    parts: WideParts,
    budget: &mut Budget,
) -> Result<Subtable<'a>, Refusal>
    ensures answer { told_of table_of result ≡ opened_by (opened_wide (parts_of parts) bytes.now) (allowance_of budget.old) }
    ensures left { allowance_of budget.new ≡ opening_left (opened_wide (parts_of parts) bytes.now) (allowance_of budget.old) }
{
    if bytes.len() > MOST_BYTES {
        return Err(Refusal::Unopenable);
    }
    grant(wide_header(bytes, parts), budget)
}

/// Makes the draws of a subtable whose header could be read.
fn grant<'a>(subtable: Option<Subtable<'a>>, budget: &mut Budget) -> Result<Subtable<'a>, Refusal>
    ensures answer { told_of table_of result ≡ opened_by (option_map table_of subtable.entry) (allowance_of budget.old) }
    ensures left { allowance_of budget.new ≡ opening_left (option_map table_of subtable.entry) (allowance_of budget.old) }
{
    let subtable = subtable.ok_or(Refusal::Unopenable)?;
    draw_opening(&subtable, budget)?;
    Ok(subtable)
}
