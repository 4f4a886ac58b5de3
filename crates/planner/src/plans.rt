// Whether some plan for all orders meets every rule, by trying them all.
ghost use Rattle.std.specs.Prelude.{◌≡◌, ℕ, ◌<◌, ◌≤◌, length, take, slice_index};
ghost use Rattle.rows.specs.Choices.{choices};
ghost use Rattle.planner.specs.Plans.{GoesOnAnswer, ExistsAnswer};

use banks::bank::Bank;
use banks::questions::meets;
use banks::refusal::CallError;
use rows::walk::Walk;

// Whether the choices of a plan before a row go on to a plan that meets every rule. Tries the choices of each further row in turn.
pub(crate) fn goes_on<B: Bank>(
    bank: &B,
    rows: &[u64],
    plan: &mut [u8],
    from: usize,
) -> Result<bool, CallError>
    requires fronted { from ≤ length plan.old }
    requires chosen { (r : ℕ) → r < from → slice_index plan.old r < choices }
    ensures answer { GoesOnAnswer (B.wide bank.now) (B.rules bank.now) rows.now from plan.old result }
    ensures front { take from plan.new ≡ take from plan.old }
{
    if from == plan.len() {
        return meets(bank, plan);
    }
    if plan.len() < bank.width() {
        return Err(CallError::TooFewRows);
    }
    let Some(row) = rows.get(from) else {
        return Ok(false);
    };
    for choice in Walk::over(*row) {
        plan[from] = choice;
        if goes_on(bank, rows, plan, from + 1)? {
            return Ok(true);
        }
    }
    Ok(false)
}

// Whether some plan stands on the rows and meets every rule. The memory is where plans are tried.
pub(crate) fn plan_exists<B: Bank>(
    bank: &B,
    rows: &[u64],
    memory: &mut [u8],
) -> Result<bool, CallError>
    requires { length memory.old ≡ length rows.now }
    ensures { ExistsAnswer (B.wide bank.now) (B.rules bank.now) rows.now result }
{
    goes_on(bank, rows, memory, 0)
}
