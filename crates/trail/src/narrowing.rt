// Striking choices from a row.
ghost use Rattle.std.specs.Prelude.{◌≡◌, ◌+◌, ◌*◌, ◌<◌, ◌≤◌, [], ◌∷◌, map, length};
ghost use Rattle.rows.specs.Choices.{choices, members};
ghost use Rattle.banks.specs.Rules.{row as row_of};
ghost use Rattle.trail.specs.Calls.{NarrowAnswer, Noted, Stored};
ghost use Rattle.trail.specs.Readings.{rows_of, height_of};
ghost use Rattle.trail.specs.Strokes.{standing as StandingOn, stroke as stroke_of};
ghost use Rattle.trail.specs.Trails.{Parts};

use crate::refusal::TrailError;
use crate::trail::Trail;
use rows::mask::CHOICES;
use rows::row::Row;
use rows::walk::Walk;

impl<'r, 's> Trail<'r, 's> {
    // Strikes from a row the choices that are not wanted, and records them in rising order. Refuses a row that is not there, and then a
    // row of which no choice would be left.
    pub fn narrow(&mut self, row: usize, wanted: u64) -> Result<(), TrailError>
        ensures { NarrowAnswer row wanted self.old self.new result }
    {
        let mask = self.rows().get(row).copied().ok_or(TrailError::NoSuchRow)?;
        let kept = mask & wanted;
        let narrowed = Row::new(kept)?;
        self.store(row, narrowed, mask ^ kept);
        Ok(())
    }

    // Stores a row that has some of the choices of the one before it, and records the lost ones in rising order.
    fn store(&mut self, row: usize, narrowed: Row, lost: u64)
        requires inside { row < length (rows_of self.old) }
        requires parts { Parts (row_of (rows_of self.old) row) narrowed.mask lost }
        ensures { Stored row narrowed.mask self.old self.new }
    {
        self.rows[row] = narrowed.mask();
        self.note_all(row, lost);
    }

    // Records choices of a row in rising order. The record has room for them.
    fn note_all(&mut self, row: usize, lost: u64)
        requires inside { row < length (rows_of self.old) }
        requires spare { height_of self.old + length (members lost) + StandingOn (rows_of self.old) ≤ length (rows_of self.old) * choices }
        ensures rows { rows_of self.new ≡ rows_of self.old }
        ensures noted { Noted (map (stroke_of row) (members lost)) self.old self.new }
    {
        for choice in Walk::over(lost) {
            self.note(row * CHOICES + choice as usize);
        }
    }

    // Records a struck choice. The record has room for it. That the rows stay is said by each call that leaves them, since no type can.
    fn note(&mut self, stroke: usize)
        requires { height_of self.old + 1 + StandingOn (rows_of self.old) ≤ length (rows_of self.old) * choices }
        ensures rows { rows_of self.new ≡ rows_of self.old }
        ensures noted { Noted (stroke ∷ []) self.old self.new }
    {
        self.struck.push(stroke).unwrap();
    }
}
