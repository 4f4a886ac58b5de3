// Whether a choice of one row has a partner in the other.
ghost use Rattle.std.specs.Prelude.{◌≡◌, ℕ, ◌<◌, ◌≤◌, Decides};
ghost use Rattle.rows.specs.Choices.{stands};
ghost use Rattle.differences.specs.Partners.{Finds, Leaves, itself, another, at_least, at_most};

use rows::mask::{contains, without};
use rows::walk::Walk;

// Whether a sum stands in a mask, which none outside 0 to 63 does.
pub(crate) fn has(mask: u64, sum: i64) -> bool
    ensures { Decides result (Finds (itself sum) mask) }
{
    usize::try_from(sum).is_ok_and(|choice| contains(mask, choice))
}

// Whether another choice than a sum stands in a mask.
pub(crate) fn has_another(mask: u64, sum: i64) -> bool
    ensures { Decides result (Finds (another sum) mask) }
{
    usize::try_from(sum).map_or(mask, |choice| without(mask, choice)) != 0
}

// Whether a choice at or above a sum stands in a mask.
pub(crate) fn has_at_least(mask: u64, sum: i64) -> bool
    ensures { Decides result (Finds (at_least sum) mask) }
{
    if sum <= 0 {
        return mask != 0;
    }
    if sum >= 64 {
        return false;
    }
    mask >> sum != 0
}

// Whether a choice at or below a sum stands in a mask: the lowest is, if any.
pub(crate) fn has_at_most(mask: u64, sum: i64) -> bool
    ensures { Decides result (Finds (at_most sum) mask) }
{
    Walk::over(mask)
        .next()
        .is_some_and(|lowest| i64::from(lowest) <= sum)
}

// The remainders that the choices of a mask leave.
pub(crate) fn remainders(mask: u64, modulus: u32) -> u64
    requires { (0 < modulus) × (modulus ≤ 64) }
    ensures { (v : ℕ) → Decides (stands result v) (Leaves mask modulus v) }
{
    let mut left = 0u64;
    for choice in Walk::over(mask) {
        // Not `with`, which would test again that the remainder is a choice.
        left |= 1u64 << (u32::from(choice) % modulus);
    }
    left
}
