// A pair of any two banks is a bank again.
ghost use Rattle.std.specs.Prelude.{◌≡◌, [], ◌∷◌, length};
ghost use Rattle.rows.specs.Refusals.{Answer, first};
ghost use Rattle.banks.specs.Calls.{call_says, no_such_rule};
ghost use Rattle.banks.specs.Pairs.{fit_together, pair_width, pair_rules, pair_says, pair_refusal, LiesAt};
ghost use Rattle.banks.specs.PairsOwed.{pair_lawful};

use crate::bank::Bank;
use crate::limits::MAX_RULES;
use crate::refusal::{CallError, PairError};

// Two banks as one: the rules of the first, then those of the second.
#[derive(Drop)]
pub struct Pair<A, B> {
    first: A,
    second: B,
}

// Which of the two banks has a rule of a pair, and by which number.
#[derive(Clone, Copy)]
enum Half {
    First(usize),
    Second(usize),
}

impl<A: Bank, B: Bank> Pair<A, B> {
    // The pair of two banks, which it takes, and whether it was refused. A refused pair means width 1 and no rules: the answer stands
    // beside the pair, since the rules of the engine give a pair in both cases.
    pub fn new(first: A, second: B) -> (Pair<A, B>, Result<(), PairError>)
        ensures banks { result.0 ≡ record { first = first; second = second } }
        ensures answer { Answer pair_says (pair_refusal (A.Bank.rules first) (B.Bank.rules second)) (Unit {0}) (λ _. Unit {0}) result.1 }
    {
        let pair = Pair { first, second };
        let answer = if pair.fits() {
            Ok(())
        } else {
            Err(PairError::TooManyRules)
        };
        (pair, answer)
    }

    // Whether the rules of both banks fit into one.
    fn fits(&self) -> bool
        ensures { result ≡ fit_together (A.Bank.rules self.now.first) (B.Bank.rules self.now.second) }
    {
        self.first.rule_count() + self.second.rule_count() <= MAX_RULES
    }

    // The larger width, or 1 for a refused pair.
    fn wide(&self) -> usize
        ensures { result ≡ pair_width (A.Bank.wide self.now.first) (A.Bank.rules self.now.first) (B.Bank.wide self.now.second) (B.Bank.rules self.now.second) }
    {
        if self.fits() {
            self.first.width().max(self.second.width())
        } else {
            1
        }
    }

    // The number of rules, none for a refused pair.
    fn count(&self) -> usize
        ensures { result ≡ length (pair_rules (A.Bank.rules self.now.first) (B.Bank.rules self.now.second)) }
    {
        if self.fits() {
            self.first.rule_count() + self.second.rule_count()
        } else {
            0
        }
    }

    // Where a rule of the pair lies.
    fn find(&self, rule: usize) -> Result<Half, CallError>
        ensures { Answer call_says (first (no_such_rule (pair_rules (A.Bank.rules self.now.first) (B.Bank.rules self.now.second)) rule ∷ [])) (Unit {0}) (LiesAt (A.Bank.rules self.now.first) (B.Bank.rules self.now.second) rule) result }
    {
        if rule >= self.count() {
            return Err(CallError::NoSuchRule);
        }
        let split = self.first.rule_count();
        if rule < split {
            Ok(Half::First(rule))
        } else {
            Ok(Half::Second(rule - split))
        }
    }
}

impl<A: Bank, B: Bank> Bank for Pair<A, B> {
    ghost wide = { λ p. pair_width (A.Bank.wide p.first) (A.Bank.rules p.first) (B.Bank.wide p.second) (B.Bank.rules p.second) };

    ghost rules = { λ p. pair_rules (A.Bank.rules p.first) (B.Bank.rules p.second) };

    ghost lawful = { λ p. pair_lawful (A.Bank.wide p.first) (A.Bank.rules p.first) (B.Bank.wide p.second) (B.Bank.rules p.second) (A.Bank.lawful p.first) (B.Bank.lawful p.second) };

    fn width(&self) -> usize {
        self.wide()
    }

    fn rule_count(&self) -> usize {
        self.count()
    }

    fn arity(&self, rule: usize) -> Result<usize, CallError> {
        match self.find(rule)? {
            Half::First(rule) => self.first.arity(rule),
            Half::Second(rule) => self.second.arity(rule),
        }
    }

    fn row_at(&self, rule: usize, place: usize) -> Result<usize, CallError> {
        match self.find(rule)? {
            Half::First(rule) => self.first.row_at(rule, place),
            Half::Second(rule) => self.second.row_at(rule, place),
        }
    }

    fn support(&self, rule: usize, rows: &[u64], masks: &mut [u64]) -> Result<(), CallError> {
        let half = self.find(rule)?;
        if rows.len() < self.wide() {
            return Err(CallError::TooFewRows);
        }
        match half {
            Half::First(rule) => self.first.support(rule, rows, masks),
            Half::Second(rule) => self.second.support(rule, rows, masks),
        }
    }
}
