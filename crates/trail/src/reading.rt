// What can be read of a trail without changing it.
ghost use Rattle.std.specs.Prelude.{◌≡◌, ◌≤◌, length};
ghost use Rattle.std.specs.List.{slice_get};
ghost use Rattle.rows.specs.Choices.{stands};
ghost use Rattle.banks.specs.Calls.{SupportAnswer};
ghost use Rattle.banks.specs.Rules.{row as row_of};
ghost use Rattle.trail.specs.Readings.{rows_of, record_of};
ghost use Rattle.trail.specs.Strokes.{standing as StandingOn};
ghost use Rattle.trail.specs.Trails.{max_rows};

use crate::trail::Trail;
use banks::bank::Bank;
use banks::refusal::CallError;
use rows::mask;

// How many choices stand in at most 256 rows.
fn count_all(rows: &[u64]) -> usize
    requires { length rows.now ≤ max_rows }
    ensures { result ≡ StandingOn rows.now }
{
    rows.iter().map(|mask| mask::count(*mask) as usize).sum()
}

impl<'r, 's> Trail<'r, 's> {
    // The rows, by their masks.
    pub fn rows(&self) -> &[u64]
        ensures { result.now ≡ rows_of self.now }
    {
        &*self.rows
    }

    // How many rows there are.
    pub fn row_count(&self) -> usize
        ensures { result ≡ length (rows_of self.now) }
    {
        self.rows.len()
    }

    // The mask of a row, or 0 where there is no such row.
    pub fn mask(&self, row: usize) -> u64
        ensures { result ≡ row_of (rows_of self.now) row }
    {
        self.rows().get(row).copied().unwrap_or(0)
    }

    // Whether a choice stands in a row; none does in a row that is not there.
    pub fn contains(&self, row: usize, choice: usize) -> bool
        ensures { result ≡ stands (row_of (rows_of self.now) row) choice }
    {
        mask::contains(self.mask(row), choice)
    }

    // The struck choices that the record holds, oldest first, each as row × 64 + choice.
    pub fn strokes(&self) -> &[usize]
        ensures { result.now ≡ record_of self.now }
    {
        self.struck.entries()
    }

    // How many struck choices the record holds.
    pub fn height(&self) -> usize
        ensures { result ≡ length (record_of self.now) }
    {
        self.strokes().len()
    }

    // The struck choice at an index of the record, oldest first, as row × 64 + choice, or none past the last.
    pub fn stroke(&self, index: usize) -> Option<usize>
        ensures { result ≡ slice_get (record_of self.now) index }
    {
        self.strokes().get(index).copied()
    }

    // How many choices stand in all rows.
    pub fn standing(&self) -> usize
        ensures { result ≡ StandingOn (rows_of self.now) }
    {
        count_all(self.rows)
    }

    // Writes the support that a rule of a bank has on the rows.
    pub fn support<B: Bank>(
        &self,
        bank: &B,
        rule: usize,
        masks: &mut [u64],
    ) -> Result<(), CallError>
        ensures { SupportAnswer (B.wide bank.now) (B.rules bank.now) rule (rows_of self.now) masks.old masks.new result }
    {
        bank.support(rule, self.rows, masks)
    }
}
