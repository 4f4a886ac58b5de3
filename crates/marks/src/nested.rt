// A mark within another.
ghost use Rattle.histories.specs.Laws.{LeadsOn};
ghost use Rattle.sheet.specs.Memory.{state_of};

use sheet::refusal::SheetError;
use sheet::sheet::Sheet;

// Strikes a choice of a row to keep it struck, and then another for a look, and answers the row's mask at that look. The sheet goes back by
// the inner mark and keeps by the outer one. Both are spent also where a call is refused, and then a refusal is answered.
pub(crate) fn strike_and_look(
    sheet: &mut Sheet,
    row: usize,
    choice: usize,
    other: usize,
) -> Result<u64, SheetError>
    ensures { LeadsOn (state_of sheet.old) (state_of sheet.new) }
{
    let outer = sheet.mark()?;
    let struck = sheet.strike(row, choice);
    // By a match, since the outer mark has to be spent before the refusal is handed on.
    let inner = match sheet.mark() {
        Ok(inner) => inner,
        Err(why) => {
            sheet.back(outer)?;
            return Err(why);
        }
    };
    let looked = sheet.strike(row, other);
    let mask = sheet.trail().mask(row);
    let went_back = sheet.back(inner);
    let kept = sheet.keep(outer);
    struck.and(looked).and(went_back).and(kept)?;
    Ok(mask)
}
