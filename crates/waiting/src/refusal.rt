// Why a waiting list refuses.
ghost use Rattle.waiting.specs.ListRefusals.{list_says, put_says};

use rows::refusal::{Numbered, Refused};

// Why a waiting list cannot be made.
#[derive(Clone, Copy, PartialEq, Eq, Debug)]
pub enum ListError {
    // The capacity is outside 1 to 512.
    Capacity,
    // A class is outside 1 to 7.
    Class,
}

impl Numbered for ListError {
    ghost says = { list_says };

    fn refused(&self) -> Refused {
        Refused::plain(match self {
            ListError::Capacity => 19,
            ListError::Class => 20,
        })
    }
}

// Why a number cannot be put into a waiting list.
#[derive(Clone, Copy, PartialEq, Eq, Debug)]
pub enum PutError {
    // The number is not below the capacity.
    Number,
}

impl Numbered for PutError {
    ghost says = { put_says };

    fn refused(&self) -> Refused {
        Refused::plain(match self {
            PutError::Number => 21,
        })
    }
}
