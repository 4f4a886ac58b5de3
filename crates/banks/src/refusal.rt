// Why a bank refuses.
ghost use Rattle.std.specs.Prelude.{◌≡◌, [], ◌∷◌};
ghost use Rattle.std.specs.List.{slice_get};
ghost use Rattle.rows.specs.Refusals.{Refusal};
ghost use Rattle.banks.specs.Calls.{call_says};
ghost use Rattle.banks.specs.Faults.{bank_says};
ghost use Rattle.banks.specs.Pairs.{pair_says};

use rows::refusal::{At, Numbered, Refused};

// Why a call of a bank is refused.
#[derive(Clone, Copy, PartialEq, Eq, Debug)]
pub enum CallError {
    // The rule number is not below the bank's count.
    NoSuchRule,
    // The place is not below the rule's arity.
    NoSuchPlace,
    // There are fewer rows than the bank's width.
    TooFewRows,
    // There are fewer masks than the rule's arity.
    TooFewMasks,
}

impl Numbered for CallError {
    ghost says = { call_says };

    fn refused(&self) -> Refused {
        Refused::plain(match self {
            CallError::NoSuchRule => 22,
            CallError::NoSuchPlace => 23,
            CallError::TooFewRows => 24,
            CallError::TooFewMasks => 25,
        })
    }
}

// What can be wrong with a rule of one kind: a number, and a spot in the rule.
pub trait Fault {
    ghost says: { Self → Refusal };

    // The number of the fault.
    fn number(&self) -> u32
        ensures { result ≡ (says self.now).number };

    // Where it lies: an index in a pool, or 0.
    fn spot(&self) -> usize
        ensures { (says self.now).values ≡ result ∷ [] };

    // The value at an index: the spot is the only one.
    fn value(&self, index: usize) -> Option<usize>
        ensures { result ≡ slice_get (says self.now).values index }
    {
        [self.spot()].get(index).copied()
    }
}

// Why a bank of one kind cannot be made. The fault of a rule is of the kind's own type.
#[derive(Clone, Copy, PartialEq, Eq, Debug)]
pub enum BankError<F> {
    // More than 512 rules, or a width outside 1 to 256.
    Size,
    // The first rule with a fault, by its number.
    Rule { number: usize, fault: F },
}

impl<F: Fault> Numbered for BankError<F> {
    ghost says = { bank_says F.Fault.says };

    fn refused(&self) -> Refused {
        match self {
            BankError::Size => Refused::plain(11),
            BankError::Rule { number, fault } => Refused {
                number: fault.number(),
                at: Some(At {
                    rule: *number,
                    spot: fault.spot(),
                }),
            },
        }
    }
}

// Why two banks make no pair.
#[derive(Clone, Copy, PartialEq, Eq, Debug)]
pub enum PairError {
    // They have more than 512 rules together.
    TooManyRules,
}

impl Numbered for PairError {
    ghost says = { pair_says };

    fn refused(&self) -> Refused {
        Refused::plain(match self {
            PairError::TooManyRules => 11,
        })
    }
}
