// A row: a set of choices that is never empty.
ghost use Rattle.std.specs.Prelude.{◌≡◌, ◌<◌, [], ◌∷◌, ◌==◌};
ghost use Rattle.rows.specs.Refusals.{Answer, first, fits, plain};
ghost use Rattle.rows.specs.RowRefusals.{row_says};

use crate::refusal::RowError;

// A row, by the mask of its choices. No row that can exist is empty.
#[derive(Clone, Copy)]
pub struct Row {
    mask: u64,
    ghost some: { 0 < mask },
}

impl Row {
    // The row of the choices in a mask, which has to hold one. No `TryFrom`, since `new` and `mask` say at each call which way it goes.
    pub fn new(mask: u64) -> Result<Row, RowError>
        ensures { Answer row_says (first (fits (mask == 0) (plain 1) ∷ [])) (Unit {0}) (λ row. row.mask ≡ mask) result }
    {
        if mask == 0 {
            return Err(RowError::Empty);
        }
        Ok(Row { mask })
    }

    // The mask of the row's choices.
    pub fn mask(&self) -> u64
        ensures { result ≡ self.now.mask }
    {
        self.mask
    }
}
