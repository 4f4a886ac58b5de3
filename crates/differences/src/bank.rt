// The bank of difference rules.
ghost use Rattle.std.specs.Prelude.{◌≡◌, false, [], ◌∷◌, map, is_some};
ghost use Rattle.rows.specs.Refusals.{Answer, first};
ghost use Rattle.banks.specs.Calls.{call_says, no_such_rule};
ghost use Rattle.banks.specs.Faults.{bank_says};
ghost use Rattle.differences.specs.Checks.{refusal, fault_says, Made};
ghost use Rattle.differences.specs.Differences.{meaning};
ghost use Rattle.differences.specs.Owed.{Found, lawful_bank};

use crate::difference::Difference;
use crate::refusal::DifferenceFault;
use crate::support::both_sides;
use banks::bank::Bank;
use banks::checking::check_rules;
use banks::questions::admit;
use banks::refusal::{BankError, CallError};

// A bank of difference rules, over the memory that holds them. No bank that can exist has a fault.
#[derive(Clone, Copy)]
pub struct DifferenceBank<'a> {
    width: usize,
    differences: &'a [Difference],
    ghost sound: { is_some (refusal width differences.now) ≡ false },
}

impl<'a> DifferenceBank<'a> {
    // Refuses a width and differences of which no bank can be made.
    pub fn check(width: usize, differences: &[Difference]) -> Result<(), BankError<DifferenceFault>>
        ensures { Answer (bank_says fault_says) (refusal width differences.now) (Unit {0}) (λ _. Unit {0}) result }
    {
        check_rules(width, differences, |difference| difference.check(width))
    }

    // The bank of a width and differences, or, where the check refuses, one of width 1 and no rules. A making cannot
    // refuse, by the rules of the engine.
    pub fn make(width: usize, differences: &'a [Difference]) -> DifferenceBank<'a>
        ensures { Made width differences.now result.width (map meaning result.differences.now) }
    {
        if Self::check(width, differences).is_ok() {
            DifferenceBank { width, differences }
        } else {
            DifferenceBank {
                width: 1,
                differences: &[],
            }
        }
    }

    // The difference of a number. As in the banks of the other kinds, each over its own type.
    fn find(&self, rule: usize) -> Result<Difference, CallError>
        ensures { Answer call_says (first (no_such_rule (map meaning self.now.differences.now) rule ∷ [])) (Unit {0}) (λ d. Found self.now.width self.now.differences.now rule d) result }
    {
        self.differences
            .get(rule)
            .copied()
            .ok_or(CallError::NoSuchRule)
    }
}

impl Bank for DifferenceBank<'_> {
    ghost wide = { λ b. b.width };

    ghost rules = { λ b. map meaning b.differences.now };

    ghost lawful = { λ b. lawful_bank b.width b.differences.now b.sound };

    fn width(&self) -> usize {
        self.width
    }

    fn rule_count(&self) -> usize {
        self.differences.len()
    }

    fn arity(&self, rule: usize) -> Result<usize, CallError> {
        self.find(rule)?;
        Ok(2)
    }

    fn row_at(&self, rule: usize, place: usize) -> Result<usize, CallError> {
        let rows = self.find(rule)?.rows();
        rows.get(place).copied().ok_or(CallError::NoSuchPlace)
    }

    fn support(&self, rule: usize, rows: &[u64], masks: &mut [u64]) -> Result<(), CallError> {
        let difference = self.find(rule)?;
        admit(self.width, 2, rows, masks)?;
        let sides = both_sides(difference, rows[difference.x], rows[difference.y]);
        masks[..2].copy_from_slice(&sides);
        Ok(())
    }
}
