// The calls of a sheet as entries of a table, and the hand of marks that they give and spend.
use anyhow::anyhow;
use sheet::mark::Mark;
use sheet::refusal::SheetError;
use sheet::sheet::Sheet;
use std::alloc::AllocFailed as Refused;
use std::fmt;

// A call, and not a closure that makes it, since each is printed before it is made. A mark is spent by its place in the hand.
#[derive(Clone, Copy)]
pub(crate) enum Call {
    Strike(usize, usize),
    Hold(usize, usize),
    Mark,
    Back(usize),
    Keep(usize),
    // So many marks, each kept at once.
    Many(usize),
}

impl fmt::Display for Call {
    fn fmt<W: fmt::Write>(&self, f: &mut fmt::Formatter<W>) -> fmt::Result {
        match self {
            Call::Strike(row, choice) => write!(f, "strike {choice} of row {row}"),
            Call::Hold(row, choice) => write!(f, "hold {choice} of row {row}"),
            Call::Mark => write!(f, "mark"),
            Call::Back(place) => write!(f, "back by the mark at {place}"),
            Call::Keep(place) => write!(f, "keep by the mark at {place}"),
            Call::Many(count) => write!(f, "{count} times mark and keep"),
        }
    }
}

// The mark at a place of the hand. Sheet and hand are handed on apart, since the hand outlives every sheet.
fn picked(hand: &mut Vec<Mark>, place: usize) -> anyhow::Result<Mark> {
    // Tested first, since `remove` takes the mark out, which `get` cannot.
    if place >= hand.len() {
        return Err(anyhow!("no mark at this place of the hand"));
    }
    Ok(hand.remove(place))
}

// Asks for a mark, and takes it in hand. By a match, since a mark that finds no place in hand has to be spent first.
fn take_mark(sheet: &mut Sheet, hand: &mut Vec<Mark>) -> anyhow::Result<Result<(), SheetError>> {
    match sheet.mark() {
        Err(why) => Ok(Err(why)),
        Ok(mark) => match hand.push(mark) {
            Ok(()) => Ok(Ok(())),
            Err(refused) => {
                let Refused { value } = refused;
                // Its answer is let go: what is reported is that no memory is left.
                let _ = sheet.keep(value);
                Err(anyhow!("no memory for a mark"))
            }
        },
    }
}

// Asks for so many marks, and keeps each at once.
fn give_many(sheet: &mut Sheet, count: usize) -> Result<(), SheetError> {
    for _ in 0..count {
        let mark = sheet.mark()?;
        sheet.keep(mark)?;
    }
    Ok(())
}

// What a sheet answers to a call.
pub(crate) fn answer(
    sheet: &mut Sheet,
    hand: &mut Vec<Mark>,
    call: Call,
) -> anyhow::Result<Result<(), SheetError>> {
    match call {
        Call::Strike(row, choice) => Ok(sheet.strike(row, choice)),
        Call::Hold(row, choice) => Ok(sheet.hold(row, choice)),
        Call::Mark => take_mark(sheet, hand),
        Call::Back(place) => {
            let mark = picked(hand, place)?;
            Ok(sheet.back(mark))
        }
        Call::Keep(place) => {
            let mark = picked(hand, place)?;
            Ok(sheet.keep(mark))
        }
        Call::Many(count) => Ok(give_many(sheet, count)),
    }
}
