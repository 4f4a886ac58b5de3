// The check of a bank of any one kind: its size, and then each of its rules.
ghost use Rattle.std.specs.Fn.{FnReturnsAt};
ghost use Rattle.banks.specs.Faults.{Examined};

use crate::limits::may_hold;
use crate::refusal::BankError;

// Refuses a width and a number of rules that no bank has, and then the first rule that its own check refuses, by its number. That check
// can always be called.
pub fn check_rules<R, F, C: Fn(&R) -> Result<(), F>>(
    width: usize,
    rules: &[R],
    check: C,
) -> Result<(), BankError<F>>
    requires { C.IsAlwaysCallable check }
    ensures { Examined (FnReturnsAt C.Fn check) width rules.now result }
{
    if !may_hold(width, rules.len()) {
        return Err(BankError::Size);
    }
    for (number, rule) in rules.iter().enumerate() {
        // Not by `map_err` and `?`: the closure would say the same in more words.
        if let Err(fault) = check(rule) {
            return Err(BankError::Rule { number, fault });
        }
    }
    Ok(())
}
