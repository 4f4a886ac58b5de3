// The making of a trail, and its end.
ghost use Rattle.std.specs.Prelude.{◌≡◌, length};
ghost use Rattle.rows.specs.Refusals.{Answer};
ghost use Rattle.trail.specs.Readings.{rows_of, memory_of, height_of};
ghost use Rattle.trail.specs.Trails.{trail_says, SomeStand, no_trail, made_rows, Admits};

use crate::refusal::TrailError;
use crate::stack::Stack;
use crate::trail::{ENTRIES_A_ROW, MAX_ROWS, Trail};

impl<'r, 's> Trail<'r, 's> {
    // Refuses a mask 0, then no rows or more than 256 of them, then a record with fewer than 63 entries a row.
    #[tactic(auto, using(crate::proofs::Admitting::all_stand))]
    pub fn check(rows: &[u64], struck: &Stack<usize>) -> Result<(), TrailError>
        ensures { Answer trail_says (no_trail rows.now (length struck.now.slots.now)) (Unit {0}) (λ _. SomeStand rows.now) result }
    {
        if rows.contains(&0) {
            return Err(TrailError::EmptyRow);
        }
        if rows.is_empty() || rows.len() > MAX_ROWS {
            return Err(TrailError::RowCount);
        }
        if struck.room() < ENTRIES_A_ROW * rows.len() {
            return Err(TrailError::ShortRecord);
        }
        Ok(())
    }

    // How many of these masks become rows: all or none.
    fn admitted(rows: &[u64], struck: &Stack<usize>) -> usize
        ensures { Admits rows.now (length struck.now.slots.now) result }
    {
        if Self::check(rows, struck).is_ok() {
            rows.len()
        } else {
            0
        }
    }

    // The rows of these masks with an empty record, or, where the check refuses, no rows: a making cannot refuse, by the
    // rules of the engine. The masks and the record's memory stay.
    pub fn make(rows: &'r mut [u64], mut struck: Stack<'s, usize>) -> Trail<'r, 's>
        ensures rows { rows_of result ≡ made_rows (no_trail rows.old (length struck.entry.slots.now)) rows.old }
        ensures memory { memory_of result ≡ struck.entry.slots.now }
        ensures empty { height_of result ≡ 0 }
    {
        let count = Self::admitted(rows, &struck);
        struck.clear();
        Trail {
            rows: &mut rows[..count],
            struck,
        }
    }

    // The rows, and the stack of the record with what it holds. The trail ends.
    pub fn into_parts(self) -> (&'r mut [u64], Stack<'s, usize>)
        ensures rows { result.0.now ≡ rows_of self.entry }
        ensures record { result.1 ≡ self.entry.struck }
    {
        let Trail { rows, struck } = self;
        (rows, struck)
    }
}
