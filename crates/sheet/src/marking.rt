// Mark, back and keep.
ghost use Rattle.std.specs.Prelude.{◌≡◌, length};
ghost use Rattle.rows.specs.Refusals.{Answer};
ghost use Rattle.trail.specs.Stacks.{held};
ghost use Rattle.histories.specs.Laws.{Lawfully};
ghost use Rattle.histories.specs.Moves.{mark as marks_it, back as goes_back, keep as keeps, why};
ghost use Rattle.sheet.specs.Closing.{Found, Closed};
ghost use Rattle.sheet.specs.Memory.{state_of, RefusedLeaves, OnlyCloses};
ghost use Rattle.sheet.specs.Sheets.{sheet_says, done_or, gave_or};

use crate::mark::{Mark, OpenMark};
use crate::refusal::SheetError;
use crate::sheet::Sheet;

// The most marks that a sheet gives.
pub const MAX_MARKS: usize = 1_000_000;

impl<'r, 's> Sheet<'r, 's> {
    // Refuses where as many marks are open as can be, and then where all were given.
    fn may_mark(&self) -> Result<(), SheetError>
        ensures { Answer sheet_says (why marks_it (state_of self.now)) (Unit {0}) (λ _. Unit {0}) result }
    {
        if self.open() >= self.room {
            return Err(SheetError::MarksFull);
        }
        if self.given >= MAX_MARKS {
            return Err(SheetError::NoMarkLeft);
        }
        Ok(())
    }

    // Gives a mark, by which the planner can come back to the rows as they are now.
    pub fn mark(&mut self) -> Result<Mark, SheetError>
        ensures lawful { Lawfully marks_it (gave_or result) (state_of self.old) (state_of self.new) }
        ensures same { RefusedLeaves result self.old self.new }
    {
        self.may_mark()?;
        let serial = self.given;
        let height = self.trail.height();
        self.marks.push(OpenMark { serial, height }).unwrap();
        self.given += 1;
        Ok(Mark { serial })
    }

    // The place of the open mark of a serial, from the bottom of the mark memory.
    fn find(&self, serial: usize) -> Option<usize>
        ensures { Found serial (held self.now.marks) result }
    {
        let entries = self.marks.entries();
        entries.iter().rposition(|open| open.serial == serial)
    }

    // Closes the open mark of a serial and all later ones, and tells what was remembered of it. Refuses a serial of which none is open.
    fn close(&mut self, serial: usize) -> Result<OpenMark, SheetError>
        ensures closed { Closed serial (held self.old.marks) (held self.new.marks) result }
        ensures rest { OnlyCloses self.old self.new }
    {
        let at = self.find(serial).ok_or(SheetError::NotOpen)?;
        let open = self.marks.entries()[at];
        self.marks.truncate(at);
        Ok(open)
    }

    // Makes the rows those at the time the mark was given, and closes it and all later marks. The mark is spent, also where it is refused.
    pub fn back(&mut self, mark: Mark) -> Result<(), SheetError>
        ensures lawful { Lawfully (goes_back mark.serial) (done_or result) (state_of self.old) (state_of self.new) }
        ensures same { RefusedLeaves result self.old self.new }
    {
        let Mark { serial } = mark;
        let open = self.close(serial)?;
        self.trail.undo_to(open.height);
        Ok(())
    }

    // Closes the same marks and leaves the rows. The mark is spent, also where it is refused.
    pub fn keep(&mut self, mark: Mark) -> Result<(), SheetError>
        ensures lawful { Lawfully (keeps mark.serial) (done_or result) (state_of self.old) (state_of self.new) }
        ensures same { RefusedLeaves result self.old self.new }
    {
        let Mark { serial } = mark;
        self.close(serial)?;
        Ok(())
    }
}
