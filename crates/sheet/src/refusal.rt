// Why a call on a sheet is refused.
ghost use Rattle.sheet.specs.Sheets.{sheet_says};

use rows::refusal::{Numbered, Refused};

// Why a call on a sheet is refused.
#[derive(Clone, Copy, PartialEq, Eq, Debug)]
pub enum SheetError {
    // The row is not on the sheet.
    NoSuchRow,
    // The choice does not stand in the row.
    NotStanding,
    // No other choice stands in the row.
    LastChoice,
    // As many marks are open as the memory can hold.
    MarksFull,
    // The sheet has given 1,000,000 marks.
    NoMarkLeft,
    // No mark of this serial is open.
    NotOpen,
}

impl Numbered for SheetError {
    ghost says = { sheet_says };

    fn refused(&self) -> Refused {
        Refused::plain(match self {
            SheetError::NoSuchRow => 4,
            SheetError::NotStanding => 5,
            SheetError::LastChoice => 6,
            SheetError::MarksFull => 7,
            SheetError::NoMarkLeft => 8,
            SheetError::NotOpen => 9,
        })
    }
}
