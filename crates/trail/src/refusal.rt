// Why a stack or a trail refuses.
ghost use Rattle.std.specs.Prelude.{◌≡◌};
ghost use Rattle.trail.specs.Stacks.{stack_says};
ghost use Rattle.trail.specs.Trails.{trail_says};
ghost use Rattle.trail.specs.declared.refusal.TrailError.TheVariants.{EmptyRow};

use rows::refusal::{Numbered, Refused, RowError};

// Why a stack refuses.
#[derive(Clone, Copy, PartialEq, Eq, Debug)]
pub enum StackError {
    // A push where no slot is free.
    Full,
    // A pop where nothing lies.
    Empty,
}

impl Numbered for StackError {
    ghost says = { stack_says };

    fn refused(&self) -> Refused {
        Refused::plain(10)
    }
}

// Why a trail cannot be made, or a row not be narrowed.
#[derive(Clone, Copy, PartialEq, Eq, Debug)]
pub enum TrailError {
    // A row would be empty.
    EmptyRow,
    // There is no row, or there are more than 256.
    RowCount,
    // The record has fewer than 63 entries a row.
    ShortRecord,
    // The row is not there.
    NoSuchRow,
}

impl Numbered for TrailError {
    ghost says = { trail_says };

    fn refused(&self) -> Refused {
        Refused::plain(match self {
            TrailError::EmptyRow => 1,
            TrailError::RowCount => 2,
            TrailError::ShortRecord => 3,
            TrailError::NoSuchRow => 4,
        })
    }
}

impl From<RowError> for TrailError {
    ghost from_gives = { λ _ e. e ≡ EmptyRow };

    fn from(why: RowError) -> TrailError {
        match why {
            RowError::Empty => TrailError::EmptyRow,
        }
    }
}
