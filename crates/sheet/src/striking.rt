// Strike and hold. What a refused call leaves is said by each call of a sheet, since it is what each promises.
ghost use Rattle.std.specs.Prelude.{◌≡◌, ◌<◌, length, bit_and};
ghost use Rattle.rows.specs.Choices.{Without};
ghost use Rattle.rows.specs.Refusals.{Answer};
ghost use Rattle.banks.specs.Rules.{row as row_of};
ghost use Rattle.histories.specs.Laws.{Lawfully};
ghost use Rattle.histories.specs.Moves.{strike as strikes, hold as holds, why};
ghost use Rattle.sheet.specs.Memory.{state_of, RefusedLeaves, NarrowsSheet};
ghost use Rattle.sheet.specs.Sheets.{sheet_says, done_or};

use crate::refusal::SheetError;
use crate::sheet::Sheet;
use rows::mask;
use rows::mask::CHOICES;

impl<'r, 's> Sheet<'r, 's> {
    // Refuses a row that is not on the sheet, and then a choice that does not stand in it.
    fn may_hold(&self, row: usize, choice: usize) -> Result<(), SheetError>
        ensures { Answer sheet_says (why (holds row choice) (state_of self.now)) (Unit {0}) (λ _. Unit {0}) result }
    {
        if row >= self.trail.row_count() {
            return Err(SheetError::NoSuchRow);
        }
        // Numbers from 64 on are tested apart, since what `contains` promises does not rule them out.
        if choice >= CHOICES || !self.trail.contains(row, choice) {
            return Err(SheetError::NotStanding);
        }
        Ok(())
    }

    // Refuses what a hold refuses, and then the row's last choice.
    fn may_strike(&self, row: usize, choice: usize) -> Result<(), SheetError>
        ensures { Answer sheet_says (why (strikes row choice) (state_of self.now)) (Unit {0}) (λ _. Unit {0}) result }
    {
        self.may_hold(row, choice)?;
        if mask::count(self.trail.mask(row)) == 1 {
            return Err(SheetError::LastChoice);
        }
        Ok(())
    }

    // The choices of a row but one.
    fn others(&self, row: usize, choice: usize) -> u64
        ensures { Without choice (row_of (state_of self.now).rows row) result }
    {
        mask::without(self.trail.mask(row), choice)
    }

    // Takes one choice from one row, and records it.
    pub fn strike(&mut self, row: usize, choice: usize) -> Result<(), SheetError>
        ensures lawful { Lawfully (strikes row choice) (done_or result) (state_of self.old) (state_of self.new) }
        ensures same { RefusedLeaves result self.old self.new }
    {
        self.may_strike(row, choice)?;
        let others = self.others(row, choice);
        self.narrow(row, others);
        Ok(())
    }

    // Takes every other choice from the row, if any, and records them in rising order.
    pub fn hold(&mut self, row: usize, choice: usize) -> Result<(), SheetError>
        ensures lawful { Lawfully (holds row choice) (done_or result) (state_of self.old) (state_of self.new) }
        ensures same { RefusedLeaves result self.old self.new }
    {
        self.may_hold(row, choice)?;
        self.narrow(row, mask::only(choice));
        Ok(())
    }

    // Takes from a row the choices that are not wanted, where some are.
    fn narrow(&mut self, row: usize, wanted: u64)
        requires inside { row < length (state_of self.old).rows }
        requires some { 0 < bit_and (row_of (state_of self.old).rows row) wanted }
        ensures { NarrowsSheet row wanted self.old self.new }
    {
        self.trail.narrow(row, wanted).unwrap();
    }
}
