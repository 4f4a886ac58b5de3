// The trait of every rule bank.
ghost use Rattle.std.specs.Prelude.{◌≡◌, ℕ, List, length};
ghost use Rattle.banks.specs.Rules.{Rule};
ghost use Rattle.banks.specs.Lawful.{Lawful};
ghost use Rattle.banks.specs.Calls.{ArityAnswer, RowAnswer, SupportAnswer};

use crate::refusal::CallError;

// A rule bank means a width and a list of rules. No call changes a bank.
pub trait Bank {
    // Every rule names rows below this number.
    ghost wide: { Self → ℕ };

    // The rules, by their numbers from 0.
    ghost rules: { Self → List Rule };

    ghost lawful: { (b : Self) → Lawful (wide b) (rules b) };

    // The width.
    fn width(&self) -> usize
        ensures { result ≡ wide self.now };

    // The number of rules.
    fn rule_count(&self) -> usize
        ensures { result ≡ length (rules self.now) };

    // How many rows a rule names.
    fn arity(&self, rule: usize) -> Result<usize, CallError>
        ensures { ArityAnswer (rules self.now) rule result };

    // The row that a rule names at a place.
    fn row_at(&self, rule: usize, place: usize) -> Result<usize, CallError>
        ensures { RowAnswer (rules self.now) rule place result };

    // Writes, for each place of a rule, the mask of the choices that have support there. A row is given by its mask, and in a mask 0 no
    // choice stands.
    fn support(&self, rule: usize, rows: &[u64], masks: &mut [u64]) -> Result<(), CallError>
        ensures { SupportAnswer (wide self.now) (rules self.now) rule rows.now masks.old masks.new result };
}
