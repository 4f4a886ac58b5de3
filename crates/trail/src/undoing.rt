// Putting struck choices back, and forgetting them.
ghost use Rattle.std.specs.Prelude.{◌≡◌, ◌+◌, ◌*◌, ◌<◌, ◌≤◌, length};
ghost use Rattle.rows.specs.Choices.{choices};
ghost use Rattle.trail.specs.Readings.{rows_of, memory_of, height_of, record_of};
ghost use Rattle.trail.specs.Strokes.{standing as StandingOn, with_choice};
ghost use Rattle.trail.specs.Trails.{Undoes};
ghost use Rattle.trail.specs.Calls.{UndoesOne};

use crate::trail::Trail;
use rows::mask::CHOICES;
use rows::row::Row;

impl<'r, 's> Trail<'r, 's> {
    // Empties the record: what was struck stays struck, and cannot be put back.
    pub fn forget(&mut self)
        ensures rows { rows_of self.new ≡ rows_of self.old }
        ensures memory { memory_of self.new ≡ memory_of self.old }
        ensures empty { height_of self.new ≡ 0 }
    {
        self.struck.clear();
    }

    // Puts back every struck choice from an index of the record on, the latest first, and takes it off the record.
    pub fn undo_to(&mut self, height: usize)
        ensures rows { Undoes height (rows_of self.old) (rows_of self.new) (record_of self.old) (record_of self.new) }
        ensures memory { length (memory_of self.new) ≡ length (memory_of self.old) }
    {
        while self.height() > height {
            self.undo_one();
        }
    }

    // Takes the latest struck choice off the record and puts it back.
    fn undo_one(&mut self)
        requires { 0 < height_of self.old }
        ensures { UndoesOne self.old self.new }
    {
        let stroke = self.struck.pop().unwrap();
        self.put_back(stroke / CHOICES, stroke % CHOICES);
    }

    // Adds a choice to a row, if there is such a row. The record has room for it to be struck again.
    fn put_back(&mut self, row: usize, choice: usize)
        requires below { choice < choices }
        requires spare { height_of self.old + 1 + StandingOn (rows_of self.old) ≤ length (rows_of self.old) * choices }
        ensures rows { rows_of self.new ≡ with_choice row choice (rows_of self.old) }
        ensures memory { memory_of self.new ≡ memory_of self.old }
        ensures top { height_of self.new ≡ height_of self.old }
    {
        // Tested, since a trail does not say that each struck choice is of one of its rows, and to keep that costs more than the test.
        if row < self.rows.len() {
            // Not `with`, which would test again that the choice is one.
            let wider = Row::new(self.rows[row] | (1u64 << choice)).unwrap();
            self.rows[row] = wider.mask();
        }
    }
}
