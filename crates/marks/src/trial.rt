// A trial under a mark.
ghost use Rattle.histories.specs.Laws.{LeadsOn};
ghost use Rattle.sheet.specs.Memory.{state_of};

use banks::bank::Bank;
use rows::refusal::Numbered;
use settling::outcome::Outcome;
use settling::refusal::SettleError;
use sheet::refusal::SheetError;
use sheet::sheet::Sheet;
use std::fmt;
use waiting::list::WaitingList;

// Why a trial was not carried through.
#[derive(Clone, Copy, Drop)]
pub(crate) enum Stopped {
    // A call on the sheet was refused.
    Sheet(SheetError),
    // The settle was refused.
    Settle(SettleError),
    // The settle was wiped out, by this rule.
    WipedOut(usize),
}

impl From<SheetError> for Stopped {
    fn from(why: SheetError) -> Stopped {
        Stopped::Sheet(why)
    }
}

impl From<SettleError> for Stopped {
    fn from(why: SettleError) -> Stopped {
        Stopped::Settle(why)
    }
}

impl fmt::Display for Stopped {
    fn fmt<W: fmt::Write>(&self, f: &mut fmt::Formatter<W>) -> fmt::Result {
        match self {
            Stopped::Sheet(why) => write!(f, "{}", why.refused()),
            Stopped::Settle(why) => write!(f, "{}", why.refused()),
            Stopped::WipedOut(rule) => write!(f, "wiped out by rule {rule}"),
        }
    }
}

// Holds a choice in a row and settles; answers how many choices the settle struck. Sheet, bank and list, row and choice are handed on one by
// one, as the library's calls take them. Each function says that it leads on from the state it met, as each makes calls of its own.
fn hold_and_settle<B: Bank, L: WaitingList>(
    sheet: &mut Sheet,
    bank: &B,
    list: &mut L,
    row: usize,
    choice: usize,
) -> Result<usize, Stopped>
    ensures { LeadsOn (state_of sheet.old) (state_of sheet.new) }
{
    sheet.hold(row, choice)?;
    match sheet.settle(bank, list)? {
        Outcome::Settled(struck) => Ok(struck),
        Outcome::Wiped(rule) => Err(Stopped::WipedOut(rule)),
    }
}

// Tries that under a mark. Where the settle is wiped out, or a call refused, the sheet goes back by the mark, and else the rows are kept.
pub(crate) fn place<B: Bank, L: WaitingList>(
    sheet: &mut Sheet,
    bank: &B,
    list: &mut L,
    row: usize,
    choice: usize,
) -> Result<usize, Stopped>
    ensures { LeadsOn (state_of sheet.old) (state_of sheet.new) }
{
    let mark = sheet.mark()?;
    match hold_and_settle(sheet, bank, list, row, choice) {
        Ok(struck) => {
            sheet.keep(mark)?;
            Ok(struck)
        }
        Err(why) => {
            sheet.back(mark)?;
            Err(why)
        }
    }
}
