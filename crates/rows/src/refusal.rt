// Refusals: each reason has a number, and some say where in a rule they lie.
ghost use Rattle.std.specs.Prelude.{◌≡◌, Some, None};
ghost use Rattle.std.specs.List.{slice_get};
ghost use Rattle.rows.specs.Printing.{read, refusal_text};
ghost use Rattle.rows.specs.Refusals.{Refusal};
ghost use Rattle.rows.specs.RowRefusals.{row_says};

use std::error::Error;
use std::fmt;

// Where the fault of a rule lies: the rule's number, and the spot.
#[derive(Clone, Copy, PartialEq, Eq, Debug)]
pub struct At {
    pub rule: usize,
    pub spot: usize,
}

// A refusal as it is read: its number, and where it lies, if it says so.
#[derive(Clone, Copy, PartialEq, Eq, Debug)]
pub struct Refused {
    pub number: u32,
    pub at: Option<At>,
}

impl Refused {
    // The refusal of a number that lies nowhere in a rule.
    pub fn plain(number: u32) -> Refused
        ensures { result ≡ record { number = number; at = None } }
    {
        Refused { number, at: None }
    }
}

impl fmt::Display for Refused {
    ghost output = { λ r. Some (refusal_text (read r)) };

    fn fmt<W: fmt::Write>(&self, f: &mut fmt::Formatter<W>) -> fmt::Result {
        write!(f, "refused by {}", self.number)?;
        match self.at {
            Some(At { rule, spot }) => write!(f, " at rule {rule}, spot {spot}"),
            None => Ok(()),
        }
    }
}

impl Error for Refused {}

// A reason to refuse, as a number and the values that it carries. A trait and no `Into`, since contracts name `says`; and the reasons are no
// errors themselves, since one `Display` writes what is read of them all.
pub trait Numbered {
    ghost says: { Self → Refusal };

    // The reason as it is read.
    fn refused(&self) -> Refused
        ensures { read result ≡ says self.now };

    // The number of the reason.
    fn number(&self) -> u32
        ensures { result ≡ (says self.now).number }
    {
        self.refused().number
    }

    // The value at an index, or none past the last.
    fn value(&self, index: usize) -> Option<usize>
        ensures { result ≡ slice_get (says self.now).values index }
    {
        let At { rule, spot } = self.refused().at?;
        [rule, spot].get(index).copied()
    }
}

// Why a row cannot be made.
#[derive(Clone, Copy, PartialEq, Eq, Debug)]
pub enum RowError {
    // No choice stands in the mask.
    Empty,
}

impl Numbered for RowError {
    ghost says = { row_says };

    fn refused(&self) -> Refused {
        match self {
            RowError::Empty => Refused::plain(1),
        }
    }
}
