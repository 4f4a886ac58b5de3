// Why a settle is refused.
ghost use Rattle.settling.specs.Propagation.{settle_says};

use rows::refusal::{Numbered, Refused};

// Why a settle is refused.
#[derive(Clone, Copy, PartialEq, Eq, Debug)]
pub enum SettleError {
    // There are fewer rows than the bank's width.
    TooFewRows,
    // The list's capacity is below the number of rules.
    ShortList,
}

impl Numbered for SettleError {
    ghost says = { settle_says };

    fn refused(&self) -> Refused {
        Refused::plain(match self {
            SettleError::TooFewRows => 24,
            SettleError::ShortList => 26,
        })
    }
}
